//! What is wrong with an instance text, and on which line.

/// The first defect of an instance text: its line, counted from 1, and its kind.
#[derive(Clone, Copy)]
pub struct Bad {
    pub line: u64,
    pub kind: Kind,
}

/// The kinds of defect, numbered from 1 in this order.
#[derive(Clone, Copy)]
pub enum Kind {
    /// The bytes are not UTF-8.
    NotUtf8 = 1,
    /// The first line with words is none of `glock 1`, `glock 2` and `glock 3`.
    NoHeader = 2,
    /// No line, way or stand begins with this word, or words stand after `end`.
    Word = 3,
    /// The line has another number of words.
    Count = 4,
    /// A word for a number is not all digits.
    Number = 5,
    /// A number, or how many lines of this sort there are, is outside its limit.
    Range = 6,
    /// A name is not 1 to 12 letters, digits, `-` and `_`.
    Name = 7,
    /// An earlier chamber, or an earlier ship, has this name.
    Twice = 8,
    /// An empty turn takes longer than a passage.
    TurnOverPass = 9,
    /// No chamber line came before `end`.
    NoChamber = 10,
    /// No ship line came before `end`.
    NoShip = 11,
    /// The text is over without `end`.
    NoEnd = 12,
    /// No earlier chamber line has the name of a closure.
    Unknown = 13,
    /// A closure is empty, or shares a minute with an earlier one of its chamber.
    Overlap = 14,
}
