//! The certificate of a book: of a finished one, why its best plan is cheapest, and of any, how much
//! less another plan may cost; for a checker that shares no code with the search.
//!
//! `open_certificate_of` gives the certificate of a book at any time: the best plan, its cost, the cuts
//! and the prices in order, and one mark for each slot in preorder of the tree that the slots make,
//! though they were filled in another order; a slot that is open, held or parked is an open leaf, by
//! prices where these showed a cost of it. It stands and is well formed, so the checker never rejects
//! it, and its low is no less than what the book's verdict says. `certificate_of` gives that of a finished book, which is accepted. `StillOpen` comes exactly
//! where a slot is open, held or parked; else want of memory is the only refusal.
//!
//! Definitions: `specs/Preorder` says which marks the slots have, and `Certified` what the certificate
//! of a book is. `book_rules` says what a book keeps (`specs/Parts`), and `certificate_rules` which
//! certificates stand and are accepted (`Certificates`), and which are well formed (`WellFormed`). Of
//! private functions `Writing` says how far the marks are written.
#![tactic(auto)]

mod certificate;
mod cuts;
mod error;
mod live;
mod marks;
mod open_certificate;
mod prices;

pub use certificate::certificate_of;
pub use error::CertError;
pub use open_certificate::open_certificate_of;
