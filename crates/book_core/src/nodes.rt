//! The nodes of slots: those in hands, and those that are made again.
ghost use Rattle.std.specs.Prelude.{◌≡◌, ◌≤◌, ◌<◌, true, false, length, IfSome, IfNone};
ghost use Rattle.lock_rules.specs.Arrival.{next_ship};
ghost use Rattle.book_rules.specs.Book.{slot_at, is_held};
ghost use Rattle.master_branch.specs.Node.{IsNodeOf};
ghost use Rattle.book_core.specs.Hands.{IsHandOf, IsNodeIn};

use crate::book::Book;
use crate::hand::Hand;
use crate::path::node_from_root;
use book_rules::SlotState;
use master_branch::Node;

impl Book {
    // The hand that holds a slot; None exactly where no worker holds it.
    pub(crate) fn hand_of(&self, id: u32) -> Option<&Hand>
        ensures some { IfSome result (λ hand. IsHandOf self.now id hand.now) }
        ensures held { IfSome result (λ _. is_held (slot_at self.now id).state ≡ true) }
        ensures none { IfNone result (is_held (slot_at self.now id).state ≡ false) }
    {
        match self.state_of(id) {
            SlotState::Held(worker) => match &self.hands[worker as usize] {
                Some(hand) => Some(hand),
                None => None,
            },
            _ => None,
        }
    }

    // The node of a slot that a worker holds.
    pub(crate) fn held_node(&self, id: u32) -> &Node
        requires { is_held (slot_at self.now id).state ≡ true }
        ensures value { result.now ≡ (slot_at self.now id).node }
        ensures node { IsNodeOf self.now.case.instance result.now }
    {
        match self.hand_of(id) {
            Some(hand) => &hand.node,
            None => unreachable!(),
        }
    }

    /// The node of a slot that a worker holds; None exactly where no worker holds the slot.
    pub fn node_in_hand(&self, id: u32) -> Option<&Node>
        ensures some { IfSome result (λ node. IsNodeIn self.now.case.instance self.now.slots id node.now) }
        ensures held { IfSome result (λ _. is_held (slot_at self.now id).state ≡ true) }
        ensures none { IfNone result (is_held (slot_at self.now id).state ≡ false) }
    {
        match self.hand_of(id) {
            Some(hand) => Some(&hand.node),
            None => None,
        }
    }

    // The ship that a node of this depth lacks first.
    pub(crate) fn next_ship(&self, depth: u8) -> u8
        requires { depth < length self.now.case.instance.ships }
        ensures { result ≡ next_ship self.now.case.instance depth }
    {
        let case = &self.case;
        self.roster.ship(&case.instance, depth)
    }

    /// The node of a slot; None exactly where there is no such slot. Where no worker holds the slot it
    /// is made again step by step from the root's.
    pub fn slot_node(&self, id: u32) -> Option<Node>
        ensures known { IfSome result (λ _. id < length self.now.slots) }
        ensures value { IfSome result (λ node. node ≡ (slot_at self.now id).node) }
        ensures node { IfSome result (IsNodeOf self.now.case.instance) }
        ensures none { IfNone result (length self.now.slots ≤ id) }
    {
        if id >= self.slots() {
            return None;
        }
        match self.hand_of(id) {
            Some(hand) => Some(hand.node.copy()),
            None => Some(self.node_of(id)),
        }
    }

    // The node of a slot, made step by step from the root's: for slots that no worker holds.
    pub(crate) fn node_of(&self, id: u32) -> Node
        requires { id < length self.now.slots }
        ensures value { result ≡ (slot_at self.now id).node }
        ensures node { IsNodeOf self.now.case.instance result }
    {
        let case = &self.case;
        node_from_root(&case.instance, &self.roster, self.slots.as_slice(), id)
    }
}
