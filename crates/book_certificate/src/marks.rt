//! The marks of a book's slots, written in preorder of their tree.
ghost use Rattle.std.specs.Prelude.{◌≡◌, ◌<◌, ◌+◌, false, length, map, IfOk, IfSome, IfNone, OnOk};
ghost use Rattle.book_rules.specs.declared.book.SlotState.TheVariants as slot;
ghost use Rattle.book_rules.specs.Book.{slot_at};
ghost use Rattle.book_rules.specs.Family.{child_count};
ghost use Rattle.book_rules.specs.NextSlot.{is_split};
ghost use Rattle.book_certificate.specs.Preorder.{open_mark, mark_of, mark_at, slots_in_order};
ghost use Rattle.book_certificate.specs.Writing.{AppendsMarks};

use book_core::Book;
use book_rules::{ShownLow, SlotState};
use certificate_parts::{Mark, MarkList};
use no_memory::NoMemory;
use std::alloc::Global;

// An open leaf, by the prices by which a cost was shown of its node.
fn open_mark(shown: Option<ShownLow>) -> Mark
    ensures { result ≡ open_mark shown }
{
    match shown {
        Some(low) => Mark::OpenPriced(low.prices),
        None => Mark::Open,
    }
}

// The mark of a slot, by its state and what is shown of it: an open leaf where it is open, held or parked.
fn mark_of(shown: Option<ShownLow>, state: SlotState) -> Mark
    ensures { result ≡ mark_of shown state }
{
    match state {
        SlotState::Split(_) => Mark::Split,
        SlotState::Closed(why) => Mark::Leaf(why),
        _ => open_mark(shown),
    }
}

// The mark of a slot.
fn mark_at(book: &Book, id: u32) -> Mark
    requires { id < length book.now.slots }
    ensures { result ≡ mark_at book.now id }
{
    match book.slot_state(id) {
        Some(state) => mark_of(book.shown_low(id), state),
        None => unreachable!(),
    }
}

// The first child of a slot. None where it isn't split.
fn first_child(book: &Book, id: u32) -> Option<u32>
    requires { id < length book.now.slots }
    ensures some { IfSome result (λ first. (slot_at book.now id).state ≡ slot.Split first) }
    ensures none { IfNone result (is_split (slot_at book.now id).state ≡ false) }
{
    match book.slot_state(id) {
        Some(SlotState::Split(first)) => Some(first),
        _ => None,
    }
}

// The slot behind the last child of a split.
fn children_end(book: &Book, id: u32, first: u32) -> u32
    requires { (slot_at book.now id).state ≡ slot.Split first }
    ensures { result ≡ first + child_count book.now.case.instance (slot_at book.now id).node }
{
    book.keeps();
    let mut end = first;
    while book.parent(end) == Some(id) {
        end += 1;
    }
    end
}

// Appends the mark of a slot that isn't split.
fn write_leaf(book: &Book, id: u32, marks: &mut MarkList) -> Result<(), NoMemory>
    requires known { id < length book.now.slots }
    requires whole { is_split (slot_at book.now id).state ≡ false }
    ensures { OnOk result (AppendsMarks book.now id marks.old marks.new) }
{
    marks.push(mark_at(book, id))?;
    Ok(())
}

// Appends the mark of a split, and the marks of its children and of all slots below them.
#[cycle(tree)]
fn write_split(book: &Book, id: u32, first: u32, marks: &mut MarkList) -> Result<(), NoMemory>
    requires known { id < length book.now.slots }
    requires split { (slot_at book.now id).state ≡ slot.Split first }
    ensures { OnOk result (AppendsMarks book.now id marks.old marks.new) }
{
    book.keeps();
    marks.push(mark_at(book, id))?;
    for child in first..children_end(book, id, first) {
        write_slot(book, child, marks)?;
    }
    Ok(())
}

// Appends the marks of a slot and of all slots below it. It calls itself no deeper than the
// instance has ships.
#[cycle(tree)]
fn write_slot(book: &Book, id: u32, marks: &mut MarkList) -> Result<(), NoMemory>
    requires { id < length book.now.slots }
    ensures { OnOk result (AppendsMarks book.now id marks.old marks.new) }
{
    match first_child(book, id) {
        Some(first) => write_split(book, id, first, marks),
        None => write_leaf(book, id, marks),
    }
}

// The marks of all slots.
pub(crate) fn marks_of(alloc: Global, book: &Book) -> Result<MarkList, NoMemory>
    ensures { IfOk result (λ marks. marks ≡ map (mark_at book.now) (slots_in_order book.now)) }
{
    book.keeps();
    let mut marks = MarkList::new(alloc);
    write_slot(book, 0, &mut marks)?;
    Ok(marks)
}
