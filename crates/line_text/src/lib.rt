//! Texts of lines and words: `Lines` gives the lines of a text one by one, `words_of`, `word_at` and
//! `is_only` the words of a line, `number` the number that a word writes, and `check_utf8` the line
//! of the first byte that is no UTF-8. Nothing here takes memory.
//!
//! Each text of the program is read with these parts. What its lines mean, and what is wrong with
//! one, is said by the crate of that text: a fault is any type that it gives.
//!
//! Definitions: `specs/Lines` (the lines of a text and the words of a line), `Left` (the lines that
//! are still to come), `Filled` (the first line with words), `Numbers`, `Steps` (steps of which the
//! first that fails gives the result), `Printed` (lines as they are printed).
#![tactic(auto)]

mod digits;
mod lines;
mod parts;
mod progress;
mod steps;
mod utf8;
mod words;

pub use digits::number;
pub use lines::Lines;
pub use progress::Progress;
pub use steps::check;
pub use utf8::check_utf8;
pub use words::{Words, is_only, word_at, words_of};
