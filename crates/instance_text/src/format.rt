//! The three formats of instance texts.
ghost use Rattle.std.specs.Prelude.{◌≡◌};
ghost use Rattle.line_text.specs.Lines.{words};
ghost use Rattle.instance_text.specs.Reading.{format_of};

use line_text::{word_at, words_of};

/// The format that the first line with words names. Closures and cargo classes stand in texts of
/// the second and the third format, and more than `FEW_SHIPS` ships in those of the third.
#[derive(Clone, Copy)]
pub enum Format {
    /// `glock 1`
    First,
    /// `glock 2`
    Second,
    /// `glock 3`
    Third,
}

/// The format that a line names as the header of a text.
#[tactic(auto, unfolding(crate::specs::Reading::format_of))]
pub fn format_of(line: &[u8]) -> Option<Format>
    ensures { result ≡ format_of (words line.now) }
{
    let words = words_of(line);
    let words = words.as_slice();
    if words.len() != 2 || word_at(words, 0) != b"glock".as_slice() {
        return None;
    }
    match word_at(words, 1) {
        b"1" => Some(Format::First),
        b"2" => Some(Format::Second),
        b"3" => Some(Format::Third),
        _ => None,
    }
}
