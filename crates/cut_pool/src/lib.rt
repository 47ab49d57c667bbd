//! Cuts that workers read without the lock of the book.
//!
//! A worker posts each cut that the book took, with the number that the book gave it, and the others
//! find it here by a chamber and ships, so that they place no group of which it is known that it
//! doesn't fit. A pool is shared by reference and only grows.
//!
//! - `Pool::post` gives a token, and `Pool::get` with the token gives exactly the entry that was
//!   posted, in any thread; so it is true of every entry of a token what was true of what was posted.
//! - `Pool::find` answers a number only where an entry of that number hits, and none only where no
//!   entry of a token that was handed in hits. It promises nothing of cuts of other workers, since no
//!   contract can say what another thread has done.
//!
//! The book stays the authority: a node is closed only by a number that the book has.
//!
//! Definitions: `lock_rules` says what a cut hits (`Cut`), `boxcar` of which vector a token is
//! (`Shows` of its `specs/Table`); here `specs/Hitting` says when an entry hits, and when a pool has an
//! entry of a number that does.
#![tactic(auto)]

mod entry;
mod pool;
mod tokens;

pub use entry::{Back, Entry, Token};
pub use pool::Pool;
pub use tokens::Tokens;
