//! What is answered at the end of a search that is to be gone on with.
ghost use Rattle.std.specs.Prelude.{◌≡◌, ◌≢◌, ℕ};
ghost use Rattle.lock_model.specs.declared.verdict.Verdict.TheVariants.{Optimal};
ghost use Rattle.book_rules.specs.Ends.{EndsWell};
ghost use Rattle.book_rules.specs.Verdict.{verdict_of};
ghost use Rattle.book_core.specs.Keeps.{IsSound};
ghost use Rattle.book_certificate.specs.Certified.{IsCertificateOf};
ghost use Rattle.solve_commands.specs.Searching.{NoBest, AnswersSearch, search_in};
ghost use Rattle.solve_commands.specs.Keeping.{IsKeptCertificate, PrintsKept};
ghost use Rattle.run_answers.specs.Written.{bytes_in};

use book_certificate::open_certificate_of;
use book_core::Book;
use cert_text::{Form, print_dossier};
use certificate_parts::Certificate;
use no_memory::NoMemory;
use run_answers::{Answer, Status, Text, no_memory};
use std::alloc::Global;

// The open dossier of the open certificate of a search.
fn open_dossier_answer(alloc: Global, book: &Book, certificate: &Certificate) -> Answer
    ghost limit: { ℕ }
    requires sound { IsSound book.now }
    requires well { EndsWell limit book.now }
    requires own { IsCertificateOf book.now certificate.now }
    requires kept { IsKeptCertificate (search_in book.now limit) certificate.now }
    ensures { AnswersSearch NoBest PrintsKept (search_in book.now limit) result.status (bytes_in result.text) }
{
    match print_dossier(alloc, Form::Open, &book.case().instance, certificate) {
        Ok(text) => Answer {
            status: Status::Open,
            text: Text::Made(text),
        },
        Err(NoMemory) => no_memory(),
    }
}

/// The open dossier of a search that ended well and open.
pub(crate) fn kept_answer(alloc: Global, book: &Book) -> Answer
    ghost limit: { ℕ }
    requires well { EndsWell limit book.now }
    requires open { verdict_of book.now ≢ Optimal }
    ensures { AnswersSearch NoBest PrintsKept (search_in book.now limit) result.status (bytes_in result.text) }
{
    book.keeps();
    match open_certificate_of(alloc, book) {
        Ok(certificate) => open_dossier_answer(alloc, book, &certificate),
        Err(NoMemory) => no_memory(),
    }
}
