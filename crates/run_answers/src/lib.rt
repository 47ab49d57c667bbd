//! What a run answers: a status and the text that goes with it.
//!
//! Each command gives an `Answer`, which the top call writes. `read_source` reads a source to its end,
//! or gives the answer where it can't be read, and `given_words` are the words of the command line. The
//! texts of refusals that several commands have stand here.
//!
//! Definitions: `specs/Statuses` (the numbers of the statuses), `Ended` (what is answered by the
//! statuses), `Refusals` (why an instance is refused), `Texts` (what is written for each refusal),
//! `Written` (the bytes of an answer), `Sources` (a source before and after a run, and what is answered
//! to it by a command that reads).
#![tactic(auto)]

mod answer;
mod reading;
mod status;
mod texts;
mod words;

pub use answer::{Answer, Text, fixed, made, no_memory};
pub use reading::{PLAN_LIMIT, read_source};
pub use status::Status;
pub use texts::{defect_text, put_defect, unfit_text};
pub use words::{NoWords, given_words};
