//! The lines of a text, counted from 1.
ghost use Rattle.std.specs.Prelude.{◌≡◌, ◌+◌, [], ◌∷◌, ◌==◌, length, Ok, Err, IfSome, IfNone};
ghost use Rattle.line_text.specs.Lines.{lines, words};

use crate::parts::{Parts, Separator};
use crate::words::words_of;
use std::marker::Model;

/// The lines of a text that are still to come, and how many came before them. Lines end at a line
/// feed, and what stands after the last line feed is a line too, even where it is empty.
#[derive(Drop)]
pub struct Lines<'a> {
    parts: Parts<'a>,
    number: u64,
}

impl<'a> Model for Lines<'a> {
    ghost use Rattle.line_text.specs.Left.{Left};
    ghost use Rattle.line_text.specs.Parts.{now_left, AreCounted};

    ghost Value = { Left };

    ghost view = { λ l. record { bytes = now_left l.parts.left; number = l.number } };

    ghost invariant = { λ l. AreCounted l.parts.left l.parts.separator l.number };
}

impl<'a> Lines<'a> {
    ghost use Rattle.line_text.specs.Left.{lines_left, words_left, bytes_left, size_left};
    ghost use Rattle.line_text.specs.Filled.{first_line, first_words, taken_line, taken_words};

    /// The lines of a text.
    #[tactic(auto, using(crate::proofs::LeftLemmas::all_left))]
    pub fn new(text: &'a [u8]) -> Lines<'a>
        ensures left { lines_left result ≡ lines text.now }
        ensures size { size_left result ≡ length text.now + 1 }
        ensures number { result.number ≡ 0 }
    {
        Lines {
            parts: Parts::new(text, Separator::LineFeed),
            number: 0,
        }
    }

    /// The next line, with its carriage return and its comment but without its line feed.
    #[tactic(auto, using(crate::proofs::LeftLemmas::next_line, crate::proofs::LeftLemmas::no_line, crate::proofs::LeftLemmas::size_is))]
    pub fn next(&mut self) -> Option<&'a [u8]>
        ensures some { IfSome result (λ line. lines_left self.old ≡ line.now ∷ lines_left self.new) }
        ensures number { IfSome result (λ line. self.new.number ≡ self.old.number + 1) }
        ensures shorter { IfSome result (λ line. size_left self.new + length line.now + 1 ≡ size_left self.old) }
        ensures none { IfNone result (lines_left self.old ≡ []) }
        ensures over { IfNone result (size_left self.old ≡ 0) }
        ensures last { IfNone result (self.new.number ≡ self.old.number) }
    {
        let line = self.parts.next()?;
        self.number += 1;
        Some(line)
    }

    /// The next line that has words, without its line feed. Where no line has, all are taken.
    pub fn next_filled(&mut self) -> Option<&'a [u8]>
        ensures line { IfSome result (λ line. first_line self.old.number (lines_left self.old) ≡ Ok (taken_line line.now self.new)) }
        ensures words { IfSome result (λ line. first_words self.old.number (words_left self.old) ≡ Ok (taken_words line.now self.new)) }
        ensures no_line { IfNone result (first_line self.old.number (lines_left self.old) ≡ Err self.new.number) }
        ensures no_words { IfNone result (first_words self.old.number (words_left self.old) ≡ Err self.new.number) }
    {
        while let Some(line) = self.next() {
            if !is_blank(line) {
                return Some(line);
            }
        }
        None
    }

    /// The number of the line that was taken last, or 0 where none was.
    pub fn number(&self) -> u64
        ensures { result ≡ self.now.number }
    {
        self.number
    }

    /// All bytes after the lines that were taken.
    #[tactic(auto, using(crate::proofs::LeftLemmas::rest_is))]
    pub fn rest(&self) -> &'a [u8]
        ensures { result.now ≡ bytes_left self.now }
    {
        self.parts.rest()
    }
}

/// Whether a line has no words.
fn is_blank(line: &[u8]) -> bool
    ensures { result ≡ (length (words line.now) == 0) }
{
    words_of(line).is_empty()
}
