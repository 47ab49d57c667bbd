//! What is posted, and what comes back.

use boxcar::Pushed;
use deck_cuts::Cut;

/// A cut with its number in the book.
#[derive(Drop)]
pub struct Entry {
    pub cut: Cut,
    pub number: u64,
}

/// What shows that an entry was posted, for as long as the pool lasts.
pub type Token = Pushed<Entry>;

/// A cut that there was no memory to post.
#[derive(Drop)]
pub struct Back {
    pub cut: Cut,
}
