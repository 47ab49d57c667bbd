//! Lists that grow.
ghost use Rattle.std.specs.Prelude.{◌≡◌, ◌++◌, ◌∷◌, [], OnOk, OnErr};

use no_memory::NoMemory;

/// Appends an item. After want of memory, the one refusal, the list is as before, and the item is
/// dropped.
pub(crate) fn append<T: Drop>(list: &mut Vec<T>, item: T) -> Result<(), NoMemory>
    ensures ok { OnOk result (list.new.items ≡ list.old.items ++ item ∷ []) }
    ensures err { OnErr result (list.new.items ≡ list.old.items) }
{
    match list.push(item) {
        Ok(()) => Ok(()),
        Err(_) => Err(NoMemory),
    }
}
