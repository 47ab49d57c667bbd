//! What is answered to words and a source.
ghost use Rattle.std.specs.Prelude.{◌≡◌, map, string_bytes};
ghost use Rattle.run_answers.specs.Sources.{drained};
ghost use Rattle.run_answers.specs.Texts.{bad_words_text};
ghost use Rattle.run_answers.specs.Written.{bytes_in};
ghost use Rattle.picture_command.specs.Runs.{AnswersRun};

use crate::asked::asked_in;
use crate::pictures::picture_answer;
use lock_io::Source;
use run_answers::{Answer, Status, fixed};
use std::alloc::Global;

/// That the words are bad.
fn refusal() -> Answer
    ensures status { result.status ≡ Status.Words }
    ensures text { bytes_in result.text ≡ bad_words_text }
{
    fixed(Status::Words, b"bad words\n")
}

/// Answers what the words after the program's name ask, over a source.
///
/// `picture` reads an instance and then a plan of it, or a dossier, whole or open. With `Good` the text is
/// the picture of a legal plan and of its lawful day, as one page. It says `optimal` of the plan of a
/// dossier whose certificate is accepted, and of that of an open dossier what no legal plan costs less
/// than. `Words` comes exactly where the words are bad, and nothing is read then. `ReadFault` comes only
/// where the source counted a fault, and the other statuses with their causes and texts as those of
/// `judge`, `check` and `lower`. Each yields to want of memory.
pub fn answer_to<S: Source>(alloc: Global, words: &[String], src: &mut S) -> Answer
    ensures { AnswersRun (map string_bytes words.now) (drained S.left S.faults src.old src.new) result.status (bytes_in result.text) }
{
    match asked_in(words) {
        Some(dial) => picture_answer(alloc, dial, src),
        None => refusal(),
    }
}
