//! The way that a worker walks ahead of the book: depth first, in the book's own order.
ghost use Rattle.std.specs.Prelude.{◌≡◌, ◌<◌, ◌≤◌, length, IfSome};
ghost use Rattle.master_branch.specs.Node.{IsNodeOf};

use book_core::Foreseen;
use lock_model::CHILDREN;
use master_branch::{Node, descend};
use no_memory::NoMemory;
use node_work::Search;
use search_book::Stretch;
use std::alloc::Global;

// A child of a node that is split, by its bound in minutes and its number among the children.
#[derive(Clone, Copy)]
struct Child {
    bound: u64,
    number: u8,
}

// A node that is split on the way, by its place in the stretch, and the child of it that was walked
// into last.
#[derive(Clone, Copy)]
struct Fork {
    place: usize,
    last: Option<Child>,
}

/// The nodes that are split on the way to where the worker is, from above.
#[derive(Drop)]
pub(crate) struct Trail {
    forks: Vec<Fork>,
}

// Whether a child comes after another one: the book takes them by bound, and then by number.
fn is_after(child: Child, last: Option<Child>) -> bool {
    match last {
        Some(last) => {
            last.bound < child.bound || (last.bound == child.bound && last.number < child.number)
        }
        None => true,
    }
}

// The child with the least bound below the best cost that comes after this one, the one of the
// smallest number on a tie.
fn next_child(bounds: &[u64], last: Option<Child>, best: u64) -> Option<Child>
    requires { length bounds.now ≤ CHILDREN }
    ensures { IfSome result (λ child. child.number < length bounds.now) }
{
    let mut next: Option<Child> = None;
    let mut least = best;
    for (number, &bound) in bounds.iter().enumerate() {
        let child = Child {
            bound,
            number: number as u8,
        };
        if bound < least && is_after(child, last) {
            least = bound;
            next = Some(child);
        }
    }
    next
}

// The child of this number of a node whose children were bounded.
#[tactic(auto, using(crate::proofs::ChildLemmas::number_within))]
fn child_of(search: &Search<'_>, parent: &Foreseen<'_>, number: u8) -> Node
    requires instance { parent.now.instance.now ≡ search.now.instance.now }
    requires number { number < length parent.now.bounds }
    ensures { IsNodeOf search.now.instance.now result }
{
    let mut node = parent.node.copy();
    let ship = search.roster.ship(search.instance, node.depth());
    descend(search.instance, &mut node, ship, number as u32);
    node
}

impl Trail {
    /// The trail before the first node.
    pub(crate) fn new(alloc: Global) -> Trail {
        Trail {
            forks: Vec::new(alloc),
        }
    }

    /// Begins again, and keeps the memory.
    pub(crate) fn clear(&mut self) {
        self.forks.truncate(0);
    }

    /// Goes on below the node at this place of the stretch, which is split.
    pub(crate) fn enter(&mut self, place: usize) -> Result<(), NoMemory> {
        match self.forks.push(Fork { place, last: None }) {
            Ok(()) => Ok(()),
            Err(_) => Err(NoMemory),
        }
    }

    /// The next node on the way; None where all are used up.
    pub(crate) fn next(
        &mut self,
        search: &Search<'_>,
        stretch: &Stretch<'_>,
        best: u64,
    ) -> Option<Node>
        requires { stretch.now.instance.now ≡ search.now.instance.now }
        ensures { IfSome result (IsNodeOf search.now.instance.now) }
    {
        while let Some(Fork { place, last }) = self.forks.pop() {
            if let Some(ahead) = stretch.nodes.get(place) {
                let bounds = ahead.foreseen.bounds.as_slice();
                if let Some(child) = next_child(bounds, last, best) {
                    self.forks.push_reserved(Fork {
                        place,
                        last: Some(child),
                    });
                    return Some(child_of(search, &ahead.foreseen, child.number));
                }
            }
        }
        None
    }
}
