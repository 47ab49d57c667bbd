//! What is wrong with a plan text, and on which line.
ghost use Rattle.std.specs.Prelude.{◌≡◌};
ghost use Rattle.plan_text.specs.Faults.{bad};

/// The first fault of a plan text: its line, counted from 1 after the instance's line `end`, and
/// its kind.
#[derive(Clone, Copy)]
pub struct BadPlan {
    pub line: u64,
    pub kind: PlanKind,
}

/// The kinds of fault, numbered from 1 in this order.
#[derive(Clone, Copy)]
pub enum PlanKind {
    /// The bytes are not UTF-8.
    NotUtf8 = 1,
    /// The first line with words is not `plan`.
    NoMark = 2,
    /// No line, way or rank begins with this word, or words stand after `end`.
    Word = 3,
    /// The line has another number of words.
    Count = 4,
    /// A word for a number is not all digits.
    Number = 5,
    /// A number, or how many lines of this sort there are, is outside its limit.
    Range = 6,
    /// No chamber, or no ship, of the instance has this name.
    Unknown = 7,
    /// The ship has a berth in this lockage already.
    Twice = 8,
    /// A berth before any lockage.
    Loose = 9,
    /// The host has no berth in this lockage.
    Host = 10,
    /// The text is over without `end`.
    NoEnd = 11,
}

/// The fault of a line.
pub fn bad(line: u64, kind: PlanKind) -> BadPlan
    ensures { result ≡ bad line kind }
{
    BadPlan { line, kind }
}
