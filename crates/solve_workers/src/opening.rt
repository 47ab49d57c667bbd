//! The book that a search begins with.
ghost use Rattle.std.specs.Prelude.{◌≡◌, ◌∷◌, [], All, IfOk, OnOk};
ghost use Rattle.lock_rules.specs.Plan.{IsLegal};
ghost use Rattle.book_rules.specs.Book.{opening_book};
ghost use Rattle.book_rules.specs.Cover.{IsOwnCut};
ghost use Rattle.solve_workers.specs.Opening.{with_cuts, opened_with};

use crate::cut_list::CutList;
use crate::told::posted;
use book_core::{Book, Case, open_book};
use deck_cuts::{Cut, copy_cut};
use lock_model::Plan;
use no_memory::NoMemory;
use std::alloc::Global;

// Posts a copy of a cut, which is of the book's case.
#[tactic(auto, using(crate::proofs::OpeningLemmas::posted_just, crate::proofs::GrowLemmas::post_granted))]
fn post_copy(book: &mut Book, cut: &Cut) -> Result<(), NoMemory>
    requires { IsOwnCut book.old.case.instance cut.now }
    ensures { OnOk result (book.new ≡ with_cuts book.old (cut.now ∷ [])) }
{
    let reply = book.post(copy_cut(cut)?);
    posted(&reply)?;
    Ok(())
}

// Posts copies of cuts in their order; they are of the book's case.
#[tactic(auto, using(crate::proofs::OpeningLemmas::posted_next, crate::proofs::OpeningLemmas::posted_whole, crate::proofs::OpeningLemmas::own_still, crate::proofs::OpeningLemmas::with_none))]
fn post_all(book: &mut Book, cuts: &CutList) -> Result<(), NoMemory>
    requires { All (IsOwnCut book.old.case.instance) cuts.now }
    ensures { OnOk result (book.new ≡ with_cuts book.old cuts.now) }
{
    for cut in cuts.as_slice() {
        post_copy(book, cut)?;
    }
    Ok(())
}

// The book of a case and a legal plan, in a box. It takes much stack, which is free again when the
// search begins.
#[inline(never)]
fn boxed(alloc: Global, case: &Case, plan: &Plan) -> Result<Box<Book>, NoMemory>
    requires { IsLegal case.now.instance plan.now }
    ensures { IfOk result (λ book. book.value ≡ opening_book case.now plan.now) }
{
    match open_book(alloc, case, plan.copy()) {
        Ok(book) => match Box::new(alloc, book) {
            Ok(book) => Ok(book),
            Err(_) => Err(NoMemory),
        },
        Err(NoMemory) => Err(NoMemory),
    }
}

/// The book of a case and a legal plan in which the given cuts, which are of the case, are posted. It is
/// in a box, since a book is large, and each place that it is moved to would take as much of the stack.
/// Refuses want of memory alone.
pub(crate) fn opened(
    alloc: Global,
    case: &Case,
    plan: &Plan,
    cuts: &CutList,
) -> Result<Box<Book>, NoMemory>
    requires legal { IsLegal case.now.instance plan.now }
    requires own { All (IsOwnCut case.now.instance) cuts.now }
    ensures { IfOk result (λ book. book.value ≡ opened_with case.now plan.now cuts.now) }
{
    let mut book = boxed(alloc, case, plan)?;
    post_all(&mut *book, cuts)?;
    Ok(book)
}
