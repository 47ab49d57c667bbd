//! The way from the root to a slot, with the nodes on it.
ghost use Rattle.std.specs.Prelude.{◌≡◌, ◌+◌, ◌<◌, ◌≤◌, ◌∷◌, [], length, vec_capacity, IfOk};
ghost use Rattle.std.specs.Bool.{OnTrue};
ghost use Rattle.master_branch.specs.Node.{IsNodeOf};
ghost use Rattle.lock_rules.specs.Node.{root as tree_root};
ghost use Rattle.flow_bounds.specs.Roster.{IsRosterOf};
ghost use Rattle.book_core.specs.Changes.{slot_in};
ghost use Rattle.book_core.specs.Hands.{IsNodeIn};
ghost use Rattle.book_core.specs.Path.{EndsAt, IsPath, IsSlotTree, last_on, root_entry};
ghost use Rattle.book_core.specs.Stored.{slots_of};

use crate::stored_slot::StoredSlot;
use flow_bounds::Roster;
use lock_model::{Instance, SHIPS_AND_ROOT};
use master_branch::{Node, descend, root};
use no_memory::NoMemory;
use std::alloc::Global;

// A slot and its node.
#[derive(Drop)]
pub(crate) struct PathNode {
    pub(crate) id: u32,
    pub(crate) node: Node,
}

// Slots and their nodes: the root's, and each time a child of the last one's, down to some slot.
#[derive(Drop)]
pub(crate) struct Path {
    pub(crate) nodes: Vec<PathNode>,
}

// How many of the first slots are left once the last ones of greater numbers are cut off.
fn count_up_to(nodes: &[PathNode], id: u32) -> usize
    ensures { result ≤ length nodes.now }
{
    let mut count = nodes.len();
    while count > 0 && nodes[count - 1].id > id {
        count -= 1;
    }
    count
}

// The node of a slot's parent becomes the slot's.
fn step(node: &mut Node, instance: &Instance, roster: &Roster, slots: &[StoredSlot], id: u32)
    requires tree { IsSlotTree instance.now (slots_of instance.now slots.now) }
    requires roster { IsRosterOf instance.now roster.now }
    requires some { 0 < id }
    requires known { id < length slots.now }
    requires from { IsNodeIn instance.now (slots_of instance.now slots.now) (slot_in (slots_of instance.now slots.now) id).parent node.old }
    ensures to { IsNodeIn instance.now (slots_of instance.now slots.now) id node.new }
    ensures deeper { node.new.depth ≡ node.old.depth + 1 }
{
    let ship = roster.ship(instance, node.depth());
    descend(instance, node, ship, slots[id as usize].number as u32);
}

// The node of a slot, made step by step from the root's.
pub(crate) fn node_from_root(
    instance: &Instance,
    roster: &Roster,
    slots: &[StoredSlot],
    id: u32,
) -> Node
    requires tree { IsSlotTree instance.now (slots_of instance.now slots.now) }
    requires roster { IsRosterOf instance.now roster.now }
    requires known { id < length slots.now }
    ensures { IsNodeIn instance.now (slots_of instance.now slots.now) id result }
{
    if id == 0 {
        return root(instance);
    }
    let mut node = node_from_root(instance, roster, slots, slots[id as usize].parent);
    step(&mut node, instance, roster, slots, id);
    node
}

impl Path {
    // No slot, and room for as many as there may be.
    pub(crate) fn with_room(alloc: Global) -> Result<Path, NoMemory>
        ensures nodes { IfOk result (λ path. path.nodes.items ≡ []) }
        ensures room { IfOk result (λ path. SHIPS_AND_ROOT ≤ vec_capacity path.nodes) }
    {
        Ok(Path {
            nodes: Vec::with_capacity(alloc, SHIPS_AND_ROOT)?,
        })
    }

    // The node of the last slot.
    pub(crate) fn last(&self) -> &Node
        requires { 0 < length self.now.nodes.items }
        ensures { result.now ≡ (last_on self.now.nodes.items).node }
    {
        &self.nodes[self.nodes.len() - 1].node
    }

    // Whether it leads to this slot.
    fn ends_at(&self, id: u32) -> bool
        ensures { OnTrue result (EndsAt id self.now.nodes.items) }
    {
        let count = self.nodes.len();
        count > 0 && self.nodes[count - 1].id == id
    }

    // It leads to the root.
    fn start(&mut self, instance: &Instance)
        requires { SHIPS_AND_ROOT ≤ vec_capacity self.old.nodes }
        ensures nodes { self.new.nodes.items ≡ root_entry ∷ [] }
        ensures node { IsNodeOf instance.now tree_root }
        ensures room { vec_capacity self.new.nodes ≡ vec_capacity self.old.nodes }
    {
        self.nodes.truncate(0);
        self.nodes.push_reserved(PathNode {
            id: 0,
            node: root(instance),
        });
    }

    // It goes on from a slot to one of its children.
    fn go_on(&mut self, instance: &Instance, roster: &Roster, slots: &[StoredSlot], id: u32)
        requires tree { IsSlotTree instance.now (slots_of instance.now slots.now) }
        requires roster { IsRosterOf instance.now roster.now }
        requires some { 0 < id }
        requires known { id < length slots.now }
        requires path { IsPath instance.now (slots_of instance.now slots.now) self.old }
        requires from { EndsAt (slot_in (slots_of instance.now slots.now) id).parent self.old.nodes.items }
        ensures path { IsPath instance.now (slots_of instance.now slots.now) self.new }
        ensures ends { EndsAt id self.new.nodes.items }
    {
        let mut next = PathNode {
            id,
            node: self.last().copy(),
        };
        step(&mut next.node, instance, roster, slots, id);
        self.nodes.push_reserved(next);
    }

    // It leads to this slot: it is cut off where the way to the slot leaves it, and goes on from
    // there. The calls are no deeper than the tree.
    pub(crate) fn lead_to(
        &mut self,
        instance: &Instance,
        roster: &Roster,
        slots: &[StoredSlot],
        id: u32,
    )
        requires tree { IsSlotTree instance.now (slots_of instance.now slots.now) }
        requires roster { IsRosterOf instance.now roster.now }
        requires known { id < length slots.now }
        requires path { IsPath instance.now (slots_of instance.now slots.now) self.old }
        ensures path { IsPath instance.now (slots_of instance.now slots.now) self.new }
        ensures ends { EndsAt id self.new.nodes.items }
    {
        let count = count_up_to(self.nodes.as_slice(), id);
        self.nodes.truncate(count);
        if self.ends_at(id) {
            return;
        }
        if id == 0 {
            self.start(instance);
            return;
        }
        self.lead_to(instance, roster, slots, slots[id as usize].parent);
        self.go_on(instance, roster, slots, id);
    }
}
