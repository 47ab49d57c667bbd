//! How far a text has come.

/// Whether the text goes on after a line.
#[derive(Clone, Copy)]
pub enum Progress {
    More,
    /// The line was `end`.
    Ended,
}
