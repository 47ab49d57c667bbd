//! How the node that the driver holds ends.
ghost use Rattle.std.specs.Prelude.{◌≡◌, ◌<◌, length, OnOk, OnErr};
ghost use Rattle.book_rules.specs.Book.{slot_at};
ghost use Rattle.book_rules.specs.Ends.{HoldsNothing};
ghost use Rattle.node_work.specs.Fates.{IsNodeCut, IsPlanAt, IsSpentAt};
ghost use Rattle.solve_workers.specs.Closable.{IsClosable, IsDriversFate};
ghost use Rattle.solve_workers.specs.Driving.{IsDriven};
ghost use Rattle.solve_workers.specs.Holds.{HoldsSlot, node_at};

use crate::told::{is_want, made, posted};
use book_core::Book;
use closing_rules::Ground;
use deck_cuts::{Cut, Hard};
use lock_model::Plan;
use no_memory::NoMemory;
use node_work::Fate;

/// Closes the held node on a ground that holds.
pub(crate) fn close(book: &mut Book, id: u32, why: Ground)
    requires holds { HoldsSlot book.old id }
    requires closed { IsClosable book.old (node_at book.old id) why }
    ensures freed { HoldsNothing book.new }
    ensures driven { IsDriven book.old book.new }
{
    book.keeps();
    book.close(id, why);
}

/// Splits the held node, which lacks a ship.
pub(crate) fn split(book: &mut Book, id: u32) -> Result<(), NoMemory>
    requires holds { HoldsSlot book.old id }
    requires lacks { (slot_at book.old id).node.depth < length book.old.case.instance.ships }
    ensures freed { OnOk result (HoldsNothing book.new) }
    ensures kept { OnErr result (book.new ≡ book.old) }
    ensures driven { IsDriven book.old book.new }
{
    book.keeps();
    let reply = book.split(id);
    made(&reply)
}

// Keeps a cut that hits the held node, and closes the node by it.
fn refute(book: &mut Book, id: u32, cut: Cut) -> Result<(), NoMemory>
    requires holds { HoldsSlot book.old id }
    requires cut { IsNodeCut book.old.case.instance (node_at book.old id).lines cut }
    ensures freed { OnOk result (HoldsNothing book.new) }
    ensures kept { OnErr result (book.new ≡ book.old) }
    ensures driven { IsDriven book.old book.new }
{
    book.keeps();
    let reply = book.post(cut);
    let number = posted(&reply)?;
    close(book, id, Ground::Cut(number));
    Ok(())
}

// Gives the plan of the held node to the book, and closes the node: its bound is the plan's cost.
fn complete(book: &mut Book, id: u32, plan: Plan) -> Result<(), NoMemory>
    requires holds { HoldsSlot book.old id }
    requires plan { IsPlanAt book.old.case.instance (node_at book.old id) plan }
    ensures freed { OnOk result (HoldsNothing book.new) }
    ensures kept { OnErr result (book.new ≡ book.old) }
    ensures driven { IsDriven book.old book.new }
{
    book.keeps();
    if is_want(&book.replace(plan)) {
        return Err(NoMemory);
    }
    close(book, id, Ground::Bound);
    Ok(())
}

// Parks the held node at a group that is spent.
fn park(book: &mut Book, id: u32, chamber: u8, place: u8, hard: &Hard)
    requires holds { HoldsSlot book.old id }
    requires spent { IsSpentAt book.old.case.instance book.old.case.turns (node_at book.old id).lines chamber place hard.now }
    ensures freed { HoldsNothing book.new }
    ensures driven { IsDriven book.old book.new }
{
    book.keeps();
    book.park(id, chamber, place, hard);
}

/// Ends the held node as its fate says. Refuses want of memory alone, after which the book is as it
/// was.
pub(crate) fn end(book: &mut Book, id: u32, fate: Fate) -> Result<(), NoMemory>
    requires holds { HoldsSlot book.old id }
    requires fate { IsDriversFate book.old (node_at book.old id) fate }
    ensures freed { OnOk result (HoldsNothing book.new) }
    ensures kept { OnErr result (book.new ≡ book.old) }
    ensures driven { IsDriven book.old book.new }
{
    match fate {
        Fate::Closed(why) => close(book, id, why),
        Fate::Split => return split(book, id),
        Fate::Plan(plan) => return complete(book, id, Box::into_inner(plan)),
        Fate::Refuted(cut) => return refute(book, id, Box::into_inner(cut)),
        Fate::Spent(chamber, place, hard) => park(book, id, chamber, place, &*hard),
    }
    Ok(())
}
