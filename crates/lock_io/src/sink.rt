//! Sinks.
ghost use Rattle.std.specs.Prelude.{◌≡◌, ◌<◌, ◌≤◌, ℕ, List, length};
ghost use Rattle.std.specs.declared.option.Option.{Option};

/// What one call of a sink answers.
#[derive(Clone, Copy)]
pub enum Put {
    /// So many of the piece's first bytes were appended.
    Took(usize),
    /// The call failed and appended nothing.
    Failed,
}

/// Where bytes go.
pub trait Sink {
    ghost use Rattle.lock_io.specs.Faults.{Rose};
    ghost use Rattle.lock_io.specs.Sinks.{TakesIn};

    /// The bytes that are held, where the sink tells them.
    ghost held: { Self → Option (List ℕ) };

    /// The count of faults. It never falls, and stays at a u64's greatest value once it is there.
    ghost faults: { Self → ℕ };

    /// Appends from 1 to all of the piece's bytes, from the first on.
    /// A failed call appends none, and the count of faults rose.
    fn put(&mut self, piece: &[u8]) -> Put
        requires { 0 < length piece.now }
        ensures bytes { TakesIn result (held self.old) (held self.new) piece.now }
        ensures counted { result ≡ Put.Failed → Rose (faults self.old) (faults self.new) }
        ensures later { faults self.old ≤ faults self.new };
}
