//! Sources.
ghost use Rattle.std.specs.Prelude.{◌≡◌, ◌<◌, ◌≤◌, ℕ, List, length};
ghost use Rattle.std.specs.declared.option.Option.{Option};

/// What one call of a source answers.
#[derive(Clone, Copy)]
pub enum Taken {
    /// So many of the next bytes stand at the front of the room.
    Given(usize),
    /// No byte is left.
    End,
    /// The call failed and took nothing.
    Failed,
}

/// Where bytes come from.
pub trait Source {
    ghost use Rattle.lock_io.specs.Faults.{Rose};
    ghost use Rattle.lock_io.specs.Sources.{HandsOut};

    /// The bytes that are left, where the source tells them.
    ghost left: { Self → Option (List ℕ) };

    /// The count of faults. It never falls, and stays at a u64's greatest value once it is there.
    ghost faults: { Self → ℕ };

    /// Hands out from 1 to all of the room's length of the next bytes, or says that none is left.
    /// A failed call takes none, and the count of faults rose.
    fn take(&mut self, room: &mut [u8]) -> Taken
        requires { 0 < length room.old }
        ensures bytes { HandsOut result (left self.old) (left self.new) room.new }
        ensures counted { result ≡ Taken.Failed → Rose (faults self.old) (faults self.new) }
        ensures later { faults self.old ≤ faults self.new };
}
