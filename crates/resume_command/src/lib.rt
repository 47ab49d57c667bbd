//! What `resume` answers: a search that goes on from an open dossier.
//!
//! `resume_answer` reads an open dossier, checks its certificate, and goes on with its search from its
//! plan and its cuts. It answers as `solve` does; what is refused is answered as `checked_dossiers`
//! says.
//!
//! Definitions: `specs/Resuming` (what `resume` answers to bytes), `Prior` (the work that an open
//! certificate holds), `Completing` (how `resume` may end).
#![tactic(auto)]

mod counting;
mod resuming;

pub use resuming::resume_answer;
