//! The line between an instance and its certificate.
ghost use Rattle.std.specs.Prelude.{◌≡◌, option_map};
ghost use Rattle.line_text.specs.Lines.{words};
ghost use Rattle.cert_text.specs.Heading.{second_word, open_word, third_word, heading_of, headed};

use line_text::{Lines, word_at, words_of};

/// Which parts the text of a certificate may have.
#[derive(Clone, Copy)]
pub enum Version {
    /// Cuts that are refuted by a quick reason, a case tree or a spot tree.
    First,
    /// Cuts that are refuted by a clash besides.
    Second,
    /// Cuts that are refuted by a berth tree besides, prices, and marks for them.
    Third,
    /// Marks of sweeps and of open leaves by prices besides, and prices of triples.
    Fourth,
}

/// What a certificate does with the nodes of the tree.
#[derive(Clone, Copy)]
pub enum Form {
    /// It closes each of them.
    Whole,
    /// It may leave some open.
    Open,
}

/// What the line between an instance and its certificate says: the version, and the form.
#[derive(Clone, Copy)]
pub enum Heading {
    /// `certificate`, `certificate 2`, `certificate 3` or `certificate 4`.
    Whole(Version),
    /// `certificate open`, which is of the second version, `certificate open 3` or `certificate open 4`.
    Open(Version),
}

/// What a second word says, where it is the last one.
fn second_word(word: &[u8]) -> Option<Heading>
    ensures { result ≡ second_word word.now }
{
    match word {
        b"2" => Some(Heading::Whole(Version::Second)),
        b"3" => Some(Heading::Whole(Version::Third)),
        b"4" => Some(Heading::Whole(Version::Fourth)),
        b"open" => Some(Heading::Open(Version::Second)),
        _ => None,
    }
}

/// What a third word says behind `open`.
fn open_word(word: &[u8]) -> Option<Heading>
    ensures { result ≡ open_word word.now }
{
    match word {
        b"3" => Some(Heading::Open(Version::Third)),
        b"4" => Some(Heading::Open(Version::Fourth)),
        _ => None,
    }
}

/// What a second and a third word say.
fn third_word(second: &[u8], third: &[u8]) -> Option<Heading>
    ensures { result ≡ third_word second.now third.now }
{
    if second == b"open".as_slice() {
        open_word(third)
    } else {
        None
    }
}

/// The heading that a line is.
#[tactic(auto, unfolding(crate::specs::Heading::heading_of))]
fn heading_of(line: &[u8]) -> Option<Heading>
    ensures { result ≡ heading_of (words line.now) }
{
    let words = words_of(line);
    let words = words.as_slice();
    if words.is_empty() || word_at(words, 0) != b"certificate".as_slice() {
        return None;
    }
    match words.len() {
        1 => Some(Heading::Whole(Version::First)),
        2 => second_word(word_at(words, 1)),
        3 => third_word(word_at(words, 1), word_at(words, 2)),
        _ => None,
    }
}

/// The heading of a text, which is its first line with words, and the bytes after that line. None
/// exactly where no line has words or the first that has is no heading. Takes no memory, and much stack,
/// which is free again when the text is read.
#[inline(never)]
#[tactic(auto, unfolding(crate::specs::Heading::headed))]
pub fn headed(text: &[u8]) -> Option<(Heading, &[u8])>
    ensures { option_map (λ found. (found.0, found.1.now)) result ≡ headed text.now }
{
    let mut lines = Lines::new(text);
    let line = lines.next_filled()?;
    let heading = heading_of(line)?;
    Some((heading, lines.rest()))
}
