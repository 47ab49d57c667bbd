//! What the commands that read dossiers answer.
//!
//! `check_answer` reads a dossier and says whether its certificate is accepted; acceptance means that no
//! legal plan costs less. `lower_answer` reads an open dossier and prints what no legal plan costs less
//! than. What is refused is answered as `checked_dossiers` says. No search stands below them.
//!
//! Definitions: `specs/DossierTexts` (what is written), `Checking` and `Lowering` (what `check` and
//! `lower` answer to bytes), `Completing` (how `lower` may end).
#![tactic(auto)]

mod checking;
mod dossier_texts;
mod lowering;

pub use checking::check_answer;
pub use lowering::lower_answer;
