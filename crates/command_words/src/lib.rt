//! The words of the command line, and the command that they mean.
//!
//! `read_words` reads the words after the program's name. It gives the command with its options
//! exactly where the words are good and each number is in its range. `good_words` says, without
//! memory, whether they are good but for the ranges; only such words reach `clap`.
//!
//! How a command line is written stands in `specs/Written.antt`, the ranges and defaults in
//! `specs/Numbers.antt`, and what good words and their command are in `specs/Meaning.antt`.
#![tactic(auto)]

mod arguments;
mod command_names;
mod commands;
mod errors;
mod judge;
mod numbers;
mod options;
mod parser;
mod partial_line;
mod reader;
mod texts;
mod word_by_word;

pub use commands::{Command, DayRest, LotOptions, ReplanOptions, SolveOptions, TrialOptions};
pub use errors::WordsError;
pub use judge::good_words;
pub use reader::read_words;
