//! Why words give no command.

/// The two ways in which reading the words ends without a command.
#[derive(Clone, Copy)]
pub enum WordsError {
    /// The words are bad: no command is written so, or a number is out of its range.
    Bad,
    /// Memory was wanting while good words were read.
    NoMemory,
}
