//! Instance texts: `read_instance` and `read_instance_part` read them in each of the three formats,
//! `print_instance` prints the canonical one, and `make_lot` makes an instance from a number. Up to
//! `FEW_SHIPS` ships stand in texts of the first two formats, and up to `SHIPS` in those of the third.
//!
//! Reading takes no memory and answers for all bytes: the instance that they mean, or their first
//! defect with its line and kind, exactly where they mean none.
//!
//! For other texts of lines and words, which `line_text` reads, `split_instance` and `after_instance`
//! give what follows the instance, and `way_of` and `way_word` go from words to ways and back, and `stand_word` says
//! where a chamber stands.
//!
//! Definitions: `specs/Words` (numbers and names), `Chamber`, `Ship` and `Closing` (the words of a
//! line), `Reading` (what a text means, its first defect, its instance part and what follows it),
//! `Draft` (what has been read so far), `Canonical` (the text that is printed), `Lot` (the generator).
#![tactic(auto)]

mod append;
mod bad;
mod chamber_line;
mod closing_line;
mod draft;
mod format;
mod line;
mod lot;
mod name;
mod numbers;
mod print;
mod read;
mod ship_line;
mod side;

pub use bad::{Bad, Kind};
pub use lot::make_lot;
pub use print::{print_instance, stand_word, way_word};
pub use read::{after_instance, read_instance, read_instance_part, split_instance};
pub use side::way_of;
