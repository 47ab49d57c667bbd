//! Which nodes a cut hits.
ghost use Rattle.std.specs.Prelude.{◌≡◌, ◌<◌, ◌↔◌, length, All, slice_get, IsTrue};
ghost use Rattle.lock_rules.specs.Cut.{HitsNode};
ghost use Rattle.master_branch.specs.Node.{IsNodeOf};
ghost use Rattle.book_rules.specs.Book.{slot_at};
ghost use Rattle.book_rules.specs.Step.{hits_in};
ghost use Rattle.book_core.specs.Hitting.{HitsLine};

use crate::book::Book;
use deck_cuts::{Cut, cut_hits};
use lock_model::{Group, Instance};
use master_branch::Node;

// Whether a cut hits a group of a chamber's line.
fn hits_line(instance: &Instance, cut: &Cut, chamber: u8, line: &[Group]) -> bool
    requires chamber_in { chamber < length instance.now.chambers }
    requires ships_in { All (λ g. All (λ s. s < length instance.now.ships) g.ships) line.now }
    ensures { IsTrue result ↔ HitsLine cut.now instance.now chamber line.now }
{
    for group in line {
        if cut_hits(cut, instance, chamber, &group.ships) {
            return true;
        }
    }
    false
}

// Whether a cut hits a group of a node.
pub(crate) fn hits_node(instance: &Instance, cut: &Cut, node: &Node) -> bool
    requires { IsNodeOf instance.now node.now }
    ensures { IsTrue result ↔ HitsNode cut.now.ships cut.now.deck instance.now node.now.lines }
{
    for chamber in 0..instance.chambers.as_slice().len() as u8 {
        if hits_line(instance, cut, chamber, node.line(chamber)) {
            return true;
        }
    }
    false
}

impl Book {
    // Whether the cut of this number hits a group of a slot's node, which is given.
    fn hits_in(&self, id: u32, node: &Node, number: u64) -> bool
        requires value { node.now ≡ (slot_at self.now id).node }
        requires node { IsNodeOf self.now.case.instance node.now }
        ensures { result ≡ hits_in self.now id (slice_get self.now.cuts number) }
    {
        let _ = id;
        match self.cut(number) {
            Some(cut) => hits_node(self.instance(), cut, node),
            None => false,
        }
    }

    // The same of a slot that no worker holds, whose node is made first.
    fn hits_made(&self, id: u32, number: u64) -> bool
        requires { id < length self.now.slots }
        ensures { result ≡ hits_in self.now id (slice_get self.now.cuts number) }
    {
        self.hits_in(id, &self.node_of(id), number)
    }

    // Whether the cut of this number hits a group of the slot's node.
    pub(crate) fn hits(&self, id: u32, number: u64) -> bool
        requires { id < length self.now.slots }
        ensures { result ≡ hits_in self.now id (slice_get self.now.cuts number) }
    {
        if self.is_held(id) {
            self.hits_in(id, self.held_node(id), number)
        } else {
            self.hits_made(id, number)
        }
    }
}
