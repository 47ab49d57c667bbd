//! The search of all cases.
ghost use Rattle.std.specs.Prelude.{◌≡◌, [], IfOk};
ghost use Rattle.case_search.specs.Found.{IsFound};

use crate::tracks::Track;
use crate::visits::{Visit, explore};
use no_memory::NoMemory;
use refute_rules::Marks;
use std::alloc::Global;

/// What a search ends with.
#[derive(Drop)]
pub enum Found {
    /// The track holds the first whole case, which is among those that the turns allow.
    Whole,
    /// All cases are refuted by this tree.
    Refuted(Marks),
    /// More cases than turns, and none of the first so many is whole.
    Spent,
}

/// Searches all cases, with at most so many turns. The track holds the empty case at first.
pub fn search<T: Track>(alloc: Global, track: &mut T, turns: u32) -> Result<Found, NoMemory>
    requires { T.case track.old ≡ [] }
    ensures deck { T.deck track.new ≡ T.deck track.old }
    ensures found { IfOk result (IsFound (T.rules (T.deck track.old)) turns (T.case track.new)) }
{
    let mut used = 0;
    let mut marks = Marks::new(alloc);
    match explore(track, turns, &mut used, &mut marks)? {
        Visit::Whole => Ok(Found::Whole),
        Visit::Refuted => Ok(Found::Refuted(marks)),
        Visit::Spent => Ok(Found::Spent),
    }
}
