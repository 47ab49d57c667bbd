//! The report of a plan: what was shown of it, each lockage with its ships, and a drawing of each
//! chamber seen from above.
//!
//! `print_report` gives exactly the bytes that `report` in `specs/Report` defines, for each legal
//! plan, or want of memory. `print_verdict_line` gives its first line alone, and `print_lockages`
//! what follows that line. `rank_word` is a word of a plan, and `put_word` and `put_named` append a word
//! after a space and a number after its name.
//!
//! Definitions: `specs/Report` (the lines of a report), `Words` (its words and letters), `Order`
//! (the order of its lockages), `Drawing` (which ship shows in each cell). That no two ships of a
//! legal plan show in one cell is a clause of `print_report`, proved in `proofs/DrawingLemmas`.
#![tactic(auto)]

mod drawing;
mod lockage;
mod order;
mod report;
mod text;
mod verdict;

pub use report::{print_lockages, print_report, print_verdict_line};
pub use text::{put_named, put_word, rank_word};
