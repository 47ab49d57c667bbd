//! Missing ships alone that never gain anything.
ghost use Rattle.std.specs.Prelude.{◌≡◌, ◌+◌, ◌*◌, ◌≤◌, IsTrue};
ghost use Rattle.price_groups.specs.Asked.{line_asked};
ghost use Rattle.price_successors.specs.Successors.{IsSuccessor};
ghost use Rattle.price_successors.specs.Dominance.{PaysLittle, IsGainless};

use crate::successor::Successor;
use lock_model::MOST;
use price_groups::LineCase;

/// What so many ships that are served by a minute are worth without what they pay.
pub(crate) fn worth_by(count: u64, end: u64) -> u64
    requires count { count ≤ MOST }
    requires end { end ≤ 10000000000 }
    ensures { result ≡ 100 * (count * end) }
{
    100 * (count * end)
}

// Whether a successor joins no group and pays no more than it is charged and its ships are worth as soon
// as they can be served from a minute on.
fn pays_little(successor: &Successor, minute: u64) -> bool
    requires minute { minute ≤ 4294967296 }
    requires short { successor.now.duration ≤ 9000000 }
    requires soon { successor.now.last ≤ 1000000 }
    requires light { successor.now.charged ≤ 255000000 }
    ensures { IsTrue result → PaysLittle minute successor.now }
{
    if successor.joins.is_some() {
        return false;
    }
    let soonest = minute.max(successor.last as u64) + successor.duration as u64;
    successor.pays as u64
        <= worth_by(successor.group.ships.len() as u64, soonest) + successor.charged as u64
}

/// Whether a successor is of missing ships alone that gain nothing, in whatever state they are served
/// from a minute on. Of ships that arrive far apart nearly all sets are so from minute 0 on.
pub(crate) fn is_gainless(case: &LineCase, successor: &Successor, minute: u64) -> bool
    requires minute { minute ≤ 4294967296 }
    requires is { IsSuccessor (line_asked case.now) successor.now }
    ensures { IsTrue result → IsGainless (line_asked case.now) minute successor.now.joins successor.now.group }
{
    pays_little(successor, minute)
}
