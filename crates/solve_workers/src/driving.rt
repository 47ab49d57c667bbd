//! The search from where a book stands to its end.
ghost use Rattle.std.specs.Prelude.{◌≡◌, ◌+◌, ◌<◌, length, OnOk};
ghost use Rattle.book_rules.specs.Book.{slot_at, is_parked};
ghost use Rattle.book_rules.specs.Cheap.{opening_cost};
ghost use Rattle.book_rules.specs.Ends.{HoldsNothing, EndsWell};
ghost use Rattle.solve_workers.specs.Driving.{IsDriven};
ghost use Rattle.solve_workers.specs.Closable.{IsOwnSearch};
ghost use Rattle.solve_workers.specs.Holding.{IsRunning, IsDone, IsTidied};

use crate::driver::Driver;
use crate::held::take;
use crate::working::work;
use book_core::Book;
use book_rules::SlotState;
use gates::{Gate, OpenGate};
use no_memory::NoMemory;
use node_work::Search;
use std::alloc::Global;

// Takes slots and works on them, until nothing is open or the nodes are spent.
#[tactic(auto, using(crate::proofs::DrivenLemmas::driven_then, crate::proofs::DrivenLemmas::driven_none, crate::proofs::DrivenLemmas::own_still))]
fn drive_nodes<G: Gate>(driver: &mut Driver<'_, G>, book: &mut Book) -> Result<(), NoMemory>
    requires free { HoldsNothing book.old }
    requires running { IsRunning book.old }
    requires own { IsOwnSearch book.old driver.old.search }
    ensures free { OnOk result (HoldsNothing book.new) }
    ensures done { OnOk result (IsDone book.new) }
    ensures driven { IsDriven book.old book.new }
{
    'slots: while let Some(id) = take(book) {
        work(driver, book, id)?;
    }
    Ok(())
}

/// Takes slots and works on them as long as fewer nodes are used than `most`. True where it came to an
/// end before: nothing is open, or the budget is spent.
#[tactic(auto, using(crate::proofs::DrivenLemmas::driven_then, crate::proofs::DrivenLemmas::driven_none, crate::proofs::DrivenLemmas::own_still))]
pub(crate) fn drive_some<G: Gate>(
    driver: &mut Driver<'_, G>,
    book: &mut Book,
    most: u32,
) -> Result<bool, NoMemory>
    requires free { HoldsNothing book.old }
    requires running { IsRunning book.old }
    requires own { IsOwnSearch book.old driver.old.search }
    ensures free { OnOk result (HoldsNothing book.new) }
    ensures driven { IsDriven book.old book.new }
    ensures search { driver.new.search ≡ driver.old.search }
{
    'slots: while book.used() < most {
        match take(book) {
            Some(id) => work(driver, book, id)?,
            None => return Ok(true),
        }
    }
    Ok(false)
}

// Whether a slot is parked.
fn is_parked(book: &Book, id: u32) -> bool
    requires { id < length book.now.slots }
    ensures { result ≡ is_parked (slot_at book.now id).state }
{
    match book.slot_state(id) {
        Some(SlotState::Parked(_, _)) => true,
        Some(_) => false,
        None => unreachable!(),
    }
}

// Closes a slot if it is parked and its bound is at least the best cost, below which the book refuses.
#[tactic(auto, using(crate::proofs::DrivenLemmas::driven_none, crate::proofs::TidyLemmas::tidied_past))]
fn close_if_parked(book: &mut Book, id: u32)
    requires known { id < length book.old.slots }
    requires tidied { IsTidied book.old id }
    ensures tidied { IsTidied book.new (id + 1) }
    ensures count { length book.new.slots ≡ length book.old.slots }
    ensures driven { IsDriven book.old book.new }
{
    if !is_parked(book, id) {
        return;
    }
    book.keeps();
    book.close_bound(id);
}

// Closes each parked slot whose bound is at least the best cost.
#[tactic(auto, using(crate::proofs::DrivenLemmas::driven_none, crate::proofs::TidyLemmas::tidied_none))]
fn close_parked(book: &mut Book)
    requires free { HoldsNothing book.old }
    requires done { IsDone book.old }
    ensures tidied { IsTidied book.new (length book.new.slots) }
    ensures driven { IsDriven book.old book.new }
{
    for id in 0..book.slots() {
        close_if_parked(book, id);
    }
}

/// Drives the search of a book to its end, as `drive` does, with what a driver has.
#[inline(never)]
#[tactic(auto, using(crate::proofs::TidyLemmas::tidied_ends, crate::proofs::DrivenLemmas::driven_then, crate::proofs::DrivenLemmas::driven_cost))]
pub(crate) fn finish<G: Gate>(driver: &mut Driver<'_, G>, book: &mut Book) -> Result<(), NoMemory>
    requires free { HoldsNothing book.old }
    requires running { IsRunning book.old }
    requires own { IsOwnSearch book.old driver.old.search }
    ensures ends { OnOk result (EndsWell (opening_cost book.old) book.new) }
    ensures case { book.new.case ≡ book.old.case }
    ensures opening { opening_cost book.new ≡ opening_cost book.old }
    ensures driven { IsDriven book.old book.new }
{
    drive_nodes(driver, book)?;
    close_parked(book);
    Ok(())
}

/// Drives the search of a book to its end on this thread, as the driver, who hasn't released; no
/// slot is held. It takes slots until nothing is open or the budget is spent, and then closes the
/// parked slots whose bound is at least the best cost. All that it does to the book is events of
/// the driver, also where it refuses, which is for want of memory alone.
pub fn drive(alloc: Global, book: &mut Book) -> Result<(), NoMemory>
    requires free { HoldsNothing book.old }
    requires running { IsRunning book.old }
    ensures ends { OnOk result (EndsWell (opening_cost book.old) book.new) }
    ensures case { book.new.case ≡ book.old.case }
    ensures opening { opening_cost book.new ≡ opening_cost book.old }
    ensures driven { IsDriven book.old book.new }
{
    let case = book.case().copy();
    let gate = OpenGate;
    let search = Search::new(&case.instance, case.turns);
    let mut driver = Driver::new(alloc, &gate, search);
    finish(&mut driver, book)
}
