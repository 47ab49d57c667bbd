//! The sums of groups that grow.
ghost use Rattle.std.specs.Prelude.{◌≡◌, ◌+◌, ◌≤◌};

use crate::masks::ShipMask;

/// Those sums of a group by which it is served that don't hang on prices; the least that one of the
/// ships that joined it may count, which helps speed alone; and the number whose bits are its ships.
#[derive(Clone, Copy)]
pub struct Sums {
    pub duration: u32,
    pub last: u32,
    pub least: u32,
    pub mask: ShipMask,
}

impl Sums {
    #[inline(always)]
    // The soonest minute by which the ships can be served.
    pub(crate) fn end(&self) -> u64
        ensures value { result ≡ self.now.last + self.now.duration }
        ensures small { result ≤ 10000000000 }
    {
        self.last as u64 + self.duration as u64
    }
}
