//! Plain texts: words and numbers, appended one after the other.
//!
//! `put` appends bytes and `put_number` a number in decimal, without sign and leading zeros. Want of
//! memory is their only refusal; what the text holds then is left open, since it is given up.
#![tactic(auto)]

mod append;

pub use append::{put, put_number};
