//! What becomes of a node that lacks ships.
ghost use Rattle.std.specs.Prelude.{◌≡◌, ◌<◌, ◌≤◌, length, IfOk, IfSome, IfNone};
ghost use Rattle.lock_rules.specs.Arrival.{next_ship};
ghost use Rattle.lock_rules.specs.Bound.{probe_of};
ghost use Rattle.lock_rules.specs.Throughput.{throughput_of};
ghost use Rattle.master_branch.specs.Node.{IsNodeOf};
ghost use Rattle.node_work.specs.Fates.{IsAnyway, IsClosedByProbe, IsEarly, IsFate, IsGroupAt};

use crate::fate::Fate;
use crate::group_fate::group_fate;
use crate::known_cuts::KnownCuts;
use crate::last::last_group;
use crate::search::Search;
use book_core::Probed;
use closing_rules::Ground;
use master_branch::Node;
use no_memory::NoMemory;
use placed_groups::Memory;
use std::alloc::Global;

/// The ground on which a node of this bound is closed at once, if there is one: its bound or the
/// throughput of the instance is at least the best cost. All are minutes. Takes no memory.
pub fn closed_early(search: &Search<'_>, bound: u64, best: u64) -> Option<Ground>
    ensures some { IfSome result (IsEarly search.now.instance.now bound best) }
    ensures none { IfNone result (bound < best) }
    ensures throughput { IfNone result (throughput_of search.now.instance.now < best) }
{
    if bound >= best {
        Some(Ground::Bound)
    } else if search.throughput >= best {
        Some(Ground::Throughput)
    } else {
        None
    }
}

// The chamber and the place in its line of the group that the node's last ship is in: the only one
// that the node's parent doesn't have. None at the root.
fn newest_group(search: &Search<'_>, node: &Node) -> Option<(u8, u8)>
    requires { IsNodeOf search.now.instance.now node.now }
    ensures { IfSome result (λ at. IsGroupAt search.now.instance.now node.now at.0 at.1) }
{
    let depth = node.depth();
    if depth == 0 {
        return None;
    }
    let ship = search.roster.ship(search.instance, depth - 1);
    last_group(search.instance, node, ship)
}

// What becomes of a node that lacks a ship, by its newest group; the nodes above had the others.
fn fate_by_newest<K: KnownCuts>(
    alloc: Global,
    search: &Search<'_>,
    node: &Node,
    known: &K,
    memory: &mut Memory,
) -> Result<Fate, NoMemory>
    requires node { IsNodeOf search.now.instance.now node.now }
    requires lacks { node.now.depth < length search.now.instance.now.ships }
    ensures { IfOk result (IsAnyway (K.tells known.now search.now.instance.now) search.now.instance.now search.now.turns node.now) }
{
    let Some(at) = newest_group(search, node) else {
        return Ok(Fate::Split);
    };
    match group_fate(alloc, search, node, at, known, memory)? {
        Some(fate) => Ok(fate),
        None => Ok(Fate::Split),
    }
}

/// What becomes of a node that lacks ships, whose next ship's probe is worked out, where the best
/// plan costs so many minutes: it is closed by the probe of the next ship; or its newest group is
/// known to fit or the placers find that it does, and it is split; or a known cut or a new one hits
/// that group, or it is spent. What the placers find is remembered. Its only refusal is want of
/// memory.
pub fn inner_fate<K: KnownCuts>(
    alloc: Global,
    search: &Search<'_>,
    probed: &Probed<'_>,
    best: u64,
    known: &K,
    memory: &mut Memory,
) -> Result<Fate, NoMemory>
    requires { probed.now.instance.now ≡ search.now.instance.now }
    ensures fate { IfOk result (IsFate (K.tells known.now search.now.instance.now) search.now.instance.now search.now.turns best probed.now.node.now) }
    ensures probed { IfOk result (IsClosedByProbe search.now.instance.now best probed.now.node.now) }
{
    if probed.least < best {
        return fate_by_newest(alloc, search, probed.node, known, memory);
    }
    let ship = search.roster.ship(search.instance, probed.node.depth());
    Ok(Fate::Closed(Ground::Probe(ship)))
}
