//! The certificate of a finished book.
ghost use Rattle.std.specs.Prelude.{◌≡◌, ◌↔◌, IfOk, IfErr, Err};
ghost use Rattle.lock_model.specs.declared.verdict.Verdict.TheVariants.{Optimal};
ghost use Rattle.book_rules.specs.Verdict.{verdict_of};
ghost use Rattle.certificate_rules.specs.Certificates.{Accepts};
ghost use Rattle.certificate_rules.specs.WellFormed.{IsWellFormed};
ghost use Rattle.book_certificate.specs.Certified.{HasLive, IsCertificateOf};

use crate::error::CertError;
use crate::live::first_live;
use crate::open_certificate::open_certificate_of;
use book_core::Book;
use certificate_parts::Certificate;
use no_memory::NoMemory;
use std::alloc::Global;

/// The certificate of a finished book: its best plan, the plan's cost in minutes, its cuts and its
/// prices in order, and the marks of its slots in preorder of their tree. It is well formed, and accepted for the
/// instance of the book, so the checker never rejects it.
///
/// `StillOpen` exactly where a slot is open, held or parked, so never where the verdict is
/// `Optimal`. Else want of memory is the only refusal. `specs/Certified` says what the certificate
/// of a book is.
pub fn certificate_of(alloc: Global, book: &Book) -> Result<Certificate, CertError>
    ensures certified { IfOk result (IsCertificateOf book.now) }
    ensures accepted { IfOk result (Accepts book.now.case.instance) }
    ensures formed { IfOk result (IsWellFormed book.now.case.instance) }
    ensures open { (result ≡ Err CertError.StillOpen) ↔ HasLive book.now }
    ensures finished { verdict_of book.now ≡ Optimal → IfErr result (λ error. error ≡ CertError.NoMemory) }
{
    if let Some(_) = first_live(book) {
        return Err(CertError::StillOpen);
    }
    book.keeps();
    match open_certificate_of(alloc, book) {
        Ok(certificate) => Ok(certificate),
        Err(NoMemory) => Err(CertError::NoMemory),
    }
}
