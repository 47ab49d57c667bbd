//! Why a bound wasn't worked out.
ghost use Rattle.std.specs.Prelude.{◌≡◌, [], ◌∷◌, ◌++◌, OnOk};

/// Why a bound wasn't worked out.
#[derive(Clone, Copy, Debug, PartialEq, Eq)]
pub enum PriceError {
    /// There was no memory.
    NoMemory,
    /// More uncut groups or more states than the limits allow.
    TooMany,
}

/// How much work a bound may take.
#[derive(Clone, Copy)]
pub struct Limits {
    /// The greatest number of uncut groups that are listed for one group of a line, or for one way
    /// of missing ships alone.
    pub groups: usize,
    /// The greatest number of turns for one chamber; each state of its table takes two at most.
    pub turns: u64,
}

/// Appends an item.
pub fn append<T: Drop>(list: &mut Vec<T>, item: T) -> Result<(), PriceError>
    ensures { OnOk result (list.new.items ≡ list.old.items ++ item ∷ []) }
{
    match list.push(item) {
        Ok(()) => Ok(()),
        Err(_) => Err(PriceError::NoMemory),
    }
}
