//! The cuts of a book, as prices see them.
ghost use Rattle.std.specs.Prelude.{◌≡◌, ◌++◌, ◌∷◌, [], length, map, drop, IfOk, IfErr};
ghost use Rattle.book_core.specs.Telling.{bare_cut};

use book_core::Book;
use deck_cuts::Cut;
use no_memory::NoMemory;
use price_terms::ChamberCut;

// Appends the chamber and the ships of a cut. Where there was no memory, the list is as it was.
fn learn_cut(cut: &Cut, known: &mut Vec<ChamberCut>) -> Result<(), NoMemory>
    ensures learned { IfOk result (λ _. known.new.items ≡ known.old.items ++ bare_cut cut.now ∷ []) }
    ensures same { IfErr result (λ _. known.new.items ≡ known.old.items) }
{
    known.try_reserve(1)?;
    known.push_reserved(ChamberCut {
        chamber: cut.chamber,
        ships: cut.ships.copy(),
    });
    Ok(())
}

#[tactic(auto, using(crate::proofs::LearningLemmas::one_fewer))]
/// Appends the cuts of the book that come after as many as are known already, in their order. After
/// want of memory, the one refusal, some of them may have been appended.
pub fn learn_cuts(book: &Book, known: &mut Vec<ChamberCut>) -> Result<(), NoMemory>
    ensures { IfOk result (λ _. known.new.items ≡ known.old.items ++ map bare_cut (drop (length known.old.items) book.now.cuts)) }
{
    'cuts: while let Some(cut) = book.cut(known.len() as u64) {
        learn_cut(cut, known)?;
    }
    Ok(())
}
