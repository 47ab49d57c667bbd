//! Dossiers that are read and checked, without any search.
//!
//! `read_accepted` gives the instance and the certificate of a dossier exactly where the certificate is
//! accepted, so that its plan is cheapest. `read_standing` gives those of an open dossier exactly where
//! the certificate stands, and its low. Else each gives what is answered: the first fault of the
//! dossier, then a ship that fits no chamber, then the first failure of the certificate, each exactly
//! where it stands. Want of memory alone refuses what is accepted or stands.
//!
//! Definitions: `specs/RefusalTexts` (what is written), `Refused` (what is answered to a dossier that is
//! refused), `Accepted` and `Standing` (bytes that are a dossier with an accepted certificate, and those
//! that are an open dossier that stands).
#![tactic(auto)]

mod accepted;
mod refusal_texts;
mod refusals;
mod sound;
mod standing;

pub use accepted::read_accepted;
pub use refusals::DOSSIER_LIMIT;
pub use sound::CheckedDossier;
pub use standing::read_standing;
