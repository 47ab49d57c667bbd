//! The words of a line.
ghost use Rattle.std.specs.Prelude.{◌≡◌, ◌<◌, ◌≤◌, [], ◌∷◌, ◌++◌, length, take, filter};
ghost use Rattle.std.specs.List.{before_first};
ghost use Rattle.std.specs.Str.Lines.{strip_carriage_return};
ghost use Rattle.line_text.specs.Lines.{is_hash, is_word, content, words, word_at, is_only};
ghost use Rattle.line_text.specs.Texts.{texts};

use crate::parts::{Parts, Separator};
use arrayvec::ArrayVec;

/// One word more than any line may have.
const ENOUGH: usize = 13;

/// The first thirteen words of a line, without its comment. No line may have more than twelve, so
/// these tell as much as all.
pub type Words<'a> = ArrayVec<&'a [u8], ENOUGH>;

/// A line without the one carriage return that may end it.
fn without_return(line: &[u8]) -> &[u8]
    ensures { result.now ≡ strip_carriage_return line.now }
{
    match line {
        [front @ .., b'\r'] => front,
        _ => line,
    }
}

/// What stands before the comment.
fn before_comment(line: &[u8]) -> &[u8]
    ensures { result.now ≡ before_first is_hash line.now }
{
    for (i, byte) in line.iter().enumerate() {
        if *byte == b'#' {
            return &line[..i];
        }
    }
    line
}

/// What a line says.
#[tactic(auto, unfolding(crate::specs::Lines::content))]
fn content(line: &[u8]) -> &[u8]
    ensures { result.now ≡ content line.now }
{
    before_comment(without_return(line))
}

/// Appends a piece that is not empty, where there is room.
fn push_word<'a>(words: &mut Words<'a>, piece: &'a [u8])
    ensures fits { length words.new.items ≤ 13 }
    ensures value { texts words.new.items ≡ take 13 (texts words.old.items ++ filter is_word (piece.now ∷ [])) }
{
    if words.is_full() {
        return;
    }
    if piece.is_empty() {
        return;
    }
    words.push(piece);
}

/// The first thirteen words of a line. Words are separated by spaces and tabs; one carriage return
/// that ends the line, and a comment from `#` on, are no part of them. Takes no memory.
#[tactic(auto, unfolding(crate::specs::Lines::words))]
pub fn words_of(line: &[u8]) -> Words<'_>
    ensures { texts result.items ≡ take 13 (words line.now) }
{
    let mut found = ArrayVec::new();
    let mut pieces = Parts::new(content(line), Separator::Blank);
    while let Some(piece) = pieces.next() {
        push_word(&mut found, piece);
    }
    found
}

/// Word `i` of a line, from 0.
pub fn word_at<'a>(words: &[&'a [u8]], i: usize) -> &'a [u8]
    requires { i < length words.now }
    ensures { result.now ≡ word_at (texts words.now) i }
{
    words[i]
}

/// Whether a line has this one word.
#[tactic(auto, unfolding(crate::specs::Lines::is_only))]
pub fn is_only(line: &[u8], word: &[u8]) -> bool
    ensures { result ≡ is_only word.now (words line.now) }
{
    let words = words_of(line);
    let words = words.as_slice();
    words.len() == 1 && word_at(words, 0) == word
}
