//! Groups that may come next in a loose line.
ghost use Rattle.std.specs.Prelude.{ℕ, ◌≡◌, ◌≤◌, IfSome, IfNone};
ghost use Rattle.price_successors.specs.Successors.{Leads};

use lock_model::{Group, SHIPS};

/// A group that may come next, with the sums by which it is compared and served.
#[derive(Drop)]
pub struct Successor {
    pub group: Group,
    /// The place in the chamber's line of the group that it joins; None where all its ships are
    /// missing.
    pub joins: Option<u8>,
    /// How many minutes it takes.
    pub duration: u32,
    /// The minute of its last arrival.
    pub last: u32,
    /// The prices of its missing ships and 100 times its arrivals, in hundredths of a minute.
    pub pays: u32,
    /// The prices of the triples that it has, in hundredths of a minute.
    pub charged: u32,
}

impl Successor {
    // What it pays beyond what it is charged, which tells how good it is and helps speed alone.
    pub(crate) fn surplus(&self) -> u32 {
        self.pays.saturating_sub(self.charged)
    }

    // The same successor.
    pub(crate) fn copy(&self) -> Successor
        ensures { result ≡ self.now }
    {
        Successor {
            group: self.group.copy(),
            joins: self.joins,
            duration: self.duration,
            last: self.last,
            pays: self.pays,
            charged: self.charged,
        }
    }
}

#[inline(always)]
/// The place that a successor leads to from a place, where it may come next there.
pub fn led(successor: &Successor, place: u8) -> Option<u8>
    requires { place ≤ SHIPS }
    ensures some { IfSome result (λ q. Leads successor.now.joins place q) }
    ensures none { IfNone result ((q : ℕ) → ¬ Leads successor.now.joins place q) }
{
    match successor.joins {
        None => Some(place),
        Some(own) => { if own == place { Some(place + 1) } else { None } }
    }
}
