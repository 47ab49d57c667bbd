//! The slot that the driver holds.
ghost use Rattle.std.specs.Prelude.{◌≡◌, ◌≤◌, suc, IfSome, IfNone};
ghost use Rattle.book_rules.specs.Book.{slot_at};
ghost use Rattle.book_rules.specs.Ends.{HoldsNothing};
ghost use Rattle.book_rules.specs.Room.{room_of};
ghost use Rattle.solve_workers.specs.Driving.{IsDriven};
ghost use Rattle.solve_workers.specs.Holding.{IsRunning, IsDone};
ghost use Rattle.solve_workers.specs.Holds.{HoldsSlot, node_at};

use crate::told::slot_in;
use book_core::Book;
use lock_model::WORKERS;
use master_branch::Node;

/// The number of the driver, behind those of the workers.
pub(crate) const DRIVER: u8 = WORKERS as u8;

/// The node of the slot that the driver holds.
pub(crate) fn held_node(book: &Book, id: u32) -> &Node
    requires { HoldsSlot book.now id }
    ensures { result.now ≡ node_at book.now id }
{
    match book.node_in_hand(id) {
        Some(node) => node,
        None => unreachable!(),
    }
}

/// The bound of the node of the slot that the driver holds, in minutes.
pub(crate) fn held_bound(book: &Book, id: u32) -> u64
    requires { HoldsSlot book.now id }
    ensures { result ≡ (slot_at book.now id).bound }
{
    match book.bound(id) {
        Some(bound) => bound,
        None => unreachable!(),
    }
}

/// Takes a slot for the driver, who holds none; no other is held either. None where nothing is open
/// or the nodes are spent.
pub(crate) fn take(book: &mut Book) -> Option<u32>
    requires free { HoldsNothing book.old }
    requires running { IsRunning book.old }
    ensures holds { IfSome result (HoldsSlot book.new) }
    ensures falls { IfSome result (λ _. suc (room_of book.new) ≤ room_of book.old) }
    ensures done { IfNone result (IsDone book.new) }
    ensures free { IfNone result (HoldsNothing book.new) }
    ensures driven { IsDriven book.old book.new }
{
    book.keeps();
    slot_in(book.take_slot(DRIVER))
}
