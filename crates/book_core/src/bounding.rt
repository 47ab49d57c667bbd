//! The bounds of the children of a slot's node, and the probe that they are.
ghost use Rattle.std.specs.Prelude.{◌≡◌, ◌<◌, true, false, length, IfSome, IfNone};
ghost use Rattle.std.specs.Bool.{OnTrue};
ghost use Rattle.lock_rules.specs.Arrival.{next_ship};
ghost use Rattle.master_branch.specs.Node.{IsNodeOf};
ghost use Rattle.book_rules.specs.Book.{slot_at, is_held};
ghost use Rattle.book_rules.specs.Step.{lacks_ship, probe_at};
ghost use Rattle.book_core.specs.Hands.{IsNextShip};

use crate::book::Book;
use crate::hand::least_in;
use crate::hands::fill_hand;
use book_rules::SlotState;
use flow_bounds::{is_missing, probe};
use master_branch::Node;

impl Book {
    /// The probe of the ship that a held slot's node lacks first: the least bound of the children.
    /// Their bounds stay in the hand. The book is the same. Takes no memory.
    pub fn next_probe(&mut self, id: u32) -> u64
        requires held { is_held (slot_at self.old id).state ≡ true }
        requires lacks { (slot_at self.old id).node.depth < length self.old.case.instance.ships }
        ensures same { self.new ≡ self.old }
        ensures value { result ≡ probe_at self.old id (next_ship self.old.case.instance (slot_at self.old id).node.depth) }
    {
        self.keeps();
        match self.state_of(id) {
            SlotState::Held(worker) => {
                let case = &self.case;
                fill_hand(&mut self.hands, worker, &case.instance, &self.roster);
                least_in(&self.hands[worker as usize])
            }
            _ => unreachable!(),
        }
    }

    // The probe of a slot's node, which is given, and any ship; None exactly where the node doesn't
    // lack the ship.
    fn probe_in(&self, id: u32, node: &Node, ship: u8) -> Option<u64>
        requires value { node.now ≡ (slot_at self.now id).node }
        requires node { IsNodeOf self.now.case.instance node.now }
        ensures some { IfSome result (λ least. (lacks_ship self.now id ship ≡ true) × (least ≡ probe_at self.now id ship)) }
        ensures none { IfNone result (lacks_ship self.now id ship ≡ false) }
    {
        let _ = id;
        if is_missing(self.instance(), node, ship) {
            Some(probe(self.instance(), node, ship))
        } else {
            None
        }
    }

    // The same of a slot that no worker holds, whose node is made first.
    fn made_probe(&self, id: u32, ship: u8) -> Option<u64>
        requires { id < length self.now.slots }
        ensures some { IfSome result (λ least. (lacks_ship self.now id ship ≡ true) × (least ≡ probe_at self.now id ship)) }
        ensures none { IfNone result (lacks_ship self.now id ship ≡ false) }
    {
        self.probe_in(id, &self.node_of(id), ship)
    }

    // Whether a node lacks this ship first.
    fn lacks_first(&self, node: &Node, ship: u8) -> bool
        ensures lacks { OnTrue result (node.now.depth < length self.now.case.instance.ships) }
        ensures next { OnTrue result (ship ≡ next_ship self.now.case.instance node.now.depth) }
    {
        let depth = node.depth();
        let count = self.instance().ships.as_slice().len();
        (depth as usize) < count && ship == self.next_ship(depth)
    }

    // Whether a worker holds the slot, whose node lacks this ship first.
    fn is_next(&self, id: u32, ship: u8) -> bool
        ensures { OnTrue result (IsNextShip self.now id ship) }
    {
        match self.hand_of(id) {
            Some(hand) => self.lacks_first(&hand.node, ship),
            None => false,
        }
    }

    // The probe of a slot's node and a ship; None exactly where the node doesn't lack the ship.
    pub(crate) fn probe_with(&mut self, id: u32, ship: u8) -> Option<u64>
        requires { id < length self.old.slots }
        ensures same { self.new ≡ self.old }
        ensures some { IfSome result (λ least. (lacks_ship self.old id ship ≡ true) × (least ≡ probe_at self.old id ship)) }
        ensures none { IfNone result (lacks_ship self.old id ship ≡ false) }
    {
        if !self.is_held(id) {
            return self.made_probe(id, ship);
        }
        if self.is_next(id, ship) {
            Some(self.next_probe(id))
        } else {
            self.probe_in(id, self.held_node(id), ship)
        }
    }
}
