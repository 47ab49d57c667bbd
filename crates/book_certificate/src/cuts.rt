//! The cuts of a book, copied.
ghost use Rattle.std.specs.Prelude.{◌≡◌, ◌<◌, ◌^◌, length, map, IfOk};
ghost use Rattle.book_certificate.specs.Certified.{cert_cut};

use book_core::Book;
use certificate_parts::{CertCut, CertCuts};
use deck_cuts::Cut;
use std::alloc::{AllocError, Global};

// A cut as one of a certificate.
fn cert_cut(cut: &Cut) -> Result<CertCut, AllocError>
    ensures { IfOk result (λ copy. copy ≡ cert_cut cut.now) }
{
    let refutation = cut.refutation.copy()?;
    Ok(CertCut {
        chamber: cut.chamber,
        ships: cut.ships.copy(),
        refutation,
    })
}

// How many cuts there are. All of them stand in memory, so that their number is below 2^63.
fn count(cuts: &CertCuts) -> u64
    ensures value { result ≡ length cuts.now }
    ensures small { result < 2 ^ 63 }
{
    cuts.as_slice().len() as u64
}

// All cuts of a book in order. Refuses want of memory alone.
pub(crate) fn cuts_of(alloc: Global, book: &Book) -> Result<CertCuts, AllocError>
    ensures value { IfOk result (λ cuts. cuts ≡ map cert_cut book.now.cuts) }
    ensures few { IfOk result (λ _. length book.now.cuts < 2 ^ 63) }
{
    let mut cuts = CertCuts::new(alloc);
    while let Some(cut) = book.cut(count(&cuts)) {
        cuts.push(cert_cut(cut)?)?;
    }
    Ok(cuts)
}
