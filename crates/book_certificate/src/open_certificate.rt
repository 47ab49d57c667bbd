//! The certificate of a book at any time.
ghost use Rattle.std.specs.Prelude.{◌≤◌, length, IfOk};
ghost use Rattle.certificate_rules.specs.Certificates.{Stands};
ghost use Rattle.certificate_rules.specs.WellFormed.{IsWellFormed};
ghost use Rattle.book_certificate.specs.Certified.{IsCertificateOf, ProvesVerdict, HasMoreMarks};

use crate::cuts::cuts_of;
use crate::marks::marks_of;
use crate::prices::prices_of;
use book_core::Book;
use certificate_parts::Certificate;
use no_memory::NoMemory;
use std::alloc::Global;

/// The open certificate of a book: its best plan, the plan's cost in minutes, its cuts and its prices
/// in order, and the marks of its slots in preorder of their tree, where slots that are open, held or
/// parked become open leaves, by the prices by which a cost was shown of them. It is well formed, and it stands for the instance of the book, so the checker never
/// rejects it.
///
/// Its low is the best cost where the book's verdict is `Optimal`, and else at least the verdict's
/// low: it may be more, since prices show of a leaf what they can. It has at least as many marks as the book has slots, and where a slot is
/// Fresh, more marks than the book has used nodes. Refuses want of memory alone.
pub fn open_certificate_of(alloc: Global, book: &Book) -> Result<Certificate, NoMemory>
    ensures certified { IfOk result (IsCertificateOf book.now) }
    ensures stands { IfOk result (Stands book.now.case.instance) }
    ensures formed { IfOk result (IsWellFormed book.now.case.instance) }
    ensures low { IfOk result (ProvesVerdict book.now) }
    ensures marks { IfOk result (λ certificate. length book.now.slots ≤ length certificate.tree) }
    ensures more { IfOk result (HasMoreMarks book.now) }
{
    book.keeps();
    Ok(Certificate {
        cost: book.best_cost(),
        cuts: cuts_of(alloc, book)?,
        plan: book.best().copy(),
        prices: prices_of(alloc, book)?,
        tree: marks_of(alloc, book)?,
    })
}
