//! What is the same for all nodes of a search.
ghost use Rattle.std.specs.Prelude.{◌≡◌, ◌≤◌};
ghost use Rattle.flow_bounds.specs.Roster.{IsRosterOf};
ghost use Rattle.lock_rules.specs.Throughput.{throughput_of};

use flow_bounds::{Roster, throughput};
use lock_model::Instance;

/// An instance, the turns of each placer, and what is worked out of the instance once: the roster,
/// and the throughput in minutes.
#[derive(Drop)]
pub struct Search<'i> {
    pub instance: &'i Instance,
    pub turns: u32,
    pub roster: Roster,
    pub throughput: u64,
    pub ghost some_turns: { 1 ≤ turns },
    pub ghost own_roster: { IsRosterOf instance.now roster },
    pub ghost throughput_is: { throughput ≡ throughput_of instance.now },
}

impl<'i> Search<'i> {
    /// The search of an instance with so many turns, one at least. Takes no memory.
    pub fn new(instance: &'i Instance, turns: u32) -> Search<'i>
        requires { 1 ≤ turns }
        ensures instance { result.instance.now ≡ instance.now }
        ensures turns { result.turns ≡ turns }
    {
        Search {
            instance,
            turns,
            roster: Roster::of(instance),
            throughput: throughput(instance),
        }
    }
}
