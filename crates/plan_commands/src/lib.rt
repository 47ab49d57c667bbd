//! What `judge` and `play` answer to a source.
//!
//! Both read an instance and then a plan of it, at most 131,072 bytes together, and name the first
//! cause that stands in the way: the source's, a defect of the instance part, a fault of the plan text,
//! or a break of the plan. Of a legal plan `judge_answer` gives the cost and the report of the plan
//! made neat, and `play_answer` the lines of its day. Want of memory is the only free answer.
//!
//! Definitions: `specs/Planned` (bytes that name a plan, and what is answered where they name no legal
//! one), `Judging` and `Playing` (what the two commands answer). That bytes which name a legal plan are
//! answered with its text, want of memory aside, is proved in `proofs/CompleteLemmas`.
#![tactic(auto)]

mod day_text;
mod judging;
mod planned;
mod playing;

pub use judging::judge_answer;
pub use planned::{break_answer, read_planned};
pub use playing::play_answer;
