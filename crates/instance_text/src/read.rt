//! Reading instance texts.
ghost use Rattle.std.specs.Prelude.{◌≡◌, ℕ, min, length, map, Ok, Err, IfOk, IfErr, OnOk};
ghost use Rattle.instance_text.specs.Draft.{Draft as AnyDraft, IsWholeDraft, no_draft, draft_of};
ghost use Rattle.line_text.specs.Lines.{lines, words};
ghost use Rattle.instance_text.specs.Reading.{read_lines, read_line, read_lines_left, read_body_left, read_rest_left, reading, Means, Defect, bad, length_of_part, instance_part, after_instance};
ghost use Rattle.instance_text.specs.declared.bad.Kind.{Kind as AnyKind};
ghost use Rattle.lock_model.specs.declared.instance.Instance.{Instance as AnyInstance};

use crate::bad::{Bad, Kind};
use crate::draft::Draft;
use crate::format::{Format, format_of};
use crate::line::read_line;
use line_text::{Lines, Progress, check_utf8, is_only, words_of};
use lock_model::Instance;

/// The defect of the last line that was taken.
fn bad(lines: &Lines<'_>, kind: Kind) -> Bad
    ensures { result ≡ bad lines.now.number kind }
{
    Bad {
        line: lines.number(),
        kind,
    }
}

/// The format of the text, from its first line with words.
fn read_header(lines: &mut Lines<'_>) -> Result<Format, Bad>
    ensures read { IfOk result (λ format. read_lines_left lines.old ≡ read_body_left format no_draft lines.new) }
    ensures bad { IfErr result (λ b. read_lines_left lines.old ≡ Err b) }
{
    let Some(line) = lines.next_filled() else {
        return Err(bad(lines, Kind::NoHeader));
    };
    match format_of(line) {
        Some(format) => Ok(format),
        None => Err(bad(lines, Kind::NoHeader)),
    }
}

/// Reads one line into the draft.
fn read_words(format: Format, draft: &mut Draft, line: &[u8]) -> Result<Progress, Kind>
    ensures read { IfOk result (λ p. read_line format draft.old (words line.now) ≡ Ok (p, draft.new)) }
    ensures whole { IfOk result (λ p. p ≡ Progress.Ended → IsWholeDraft draft.new) }
    ensures bad { IfErr result (λ kind. read_line format draft.old (words line.now) ≡ Err kind) }
{
    read_line(format, draft, words_of(line).as_slice())
}

/// Reads the lines from the header up to `end` into the draft.
fn read_body(format: Format, draft: &mut Draft, lines: &mut Lines<'_>) -> Result<(), Bad>
    ensures read { OnOk result (read_body_left format draft.old lines.old ≡ read_rest_left draft.new lines.new) }
    ensures whole { OnOk result (IsWholeDraft draft.new) }
    ensures bad { IfErr result (λ b. read_body_left format draft.old lines.old ≡ Err b) }
{
    while let Some(line) = lines.next() {
        match read_words(format, draft, line) {
            Ok(Progress::More) => {}
            Ok(Progress::Ended) => return Ok(()),
            Err(kind) => return Err(bad(lines, kind)),
        }
    }
    Err(bad(lines, Kind::NoEnd))
}

/// Refuses a line with words after `end`.
fn read_rest(lines: &mut Lines<'_>) -> Result<(), Bad>
    ensures read { IfOk result (λ _. (draft : AnyDraft) → read_rest_left draft lines.old ≡ Ok draft) }
    ensures bad { IfErr result (λ b. (draft : AnyDraft) → read_rest_left draft lines.old ≡ Err b) }
{
    match lines.next_filled() {
        Some(_) => Err(bad(lines, Kind::Word)),
        None => Ok(()),
    }
}

/// Refuses bytes that are not UTF-8.
#[tactic(auto, unfolding(crate::specs::Reading::reading))]
fn check_text(bytes: &[u8]) -> Result<(), Bad>
    ensures text { OnOk result (reading bytes.now ≡ read_lines 0 (map words (lines bytes.now))) }
    ensures bad { IfErr result (λ b. reading bytes.now ≡ Err b) }
{
    match check_utf8(bytes) {
        Ok(()) => Ok(()),
        Err(line) => Err(Bad {
            line,
            kind: Kind::NotUtf8,
        }),
    }
}

/// What a text means. Answers the first defect exactly where it means no instance.
fn read_text(bytes: &[u8]) -> Result<Instance, Bad>
    ensures read { IfOk result (λ i. reading bytes.now ≡ Ok (draft_of i)) }
    ensures bad { IfErr result (λ b. reading bytes.now ≡ Err b) }
{
    check_text(bytes)?;
    let mut lines = Lines::new(bytes);
    let format = read_header(&mut lines)?;
    let mut draft = Draft::new();
    read_body(format, &mut draft, &mut lines)?;
    read_rest(&mut lines)?;
    Ok(draft.into_instance())
}

/// The instance of an instance text of any of the three formats. Answers the first defect exactly where the
/// bytes mean no instance. Takes no memory.
pub fn read_instance(bytes: &[u8]) -> Result<Instance, Bad>
    ensures read { IfOk result (Means bytes.now) }
    ensures bad { IfErr result (λ b. Defect bytes.now b.line b.kind) }
    ensures each { (i : AnyInstance) → Means bytes.now i → result ≡ Ok i }
    ensures each_bad { (line : ℕ) (kind : AnyKind) → Defect bytes.now line kind → result ≡ Err (bad line kind) }
{
    read_text(bytes)
}

/// How many bytes the instance part of a text has.
fn length_of_part(text: &[u8]) -> usize
    ensures { result ≡ min (length_of_part (lines text.now)) (length text.now) }
{
    let mut lines = Lines::new(text);
    let mut taken: usize = 0;
    while let Some(line) = lines.next() {
        taken += line.len() + 1;
        if is_only(line, b"end") {
            return taken.min(text.len());
        }
    }
    text.len()
}

/// The instance of the instance part of a text, which ends with its first line `end`, and how many
/// bytes the part has with that line's line feed. Without such a line the part is the whole text.
/// Answers the first defect of the part exactly where the part means no instance. Nothing after
/// the part is looked at. Takes no memory.
#[tactic(auto, unfolding(crate::specs::Reading::instance_part))]
pub fn read_instance_part(bytes: &[u8]) -> Result<(Instance, usize), Bad>
    ensures read { IfOk result (λ r. Means (instance_part bytes.now) r.0) }
    ensures taken { IfOk result (λ r. r.1 ≡ length (instance_part bytes.now)) }
    ensures bad { IfErr result (λ b. Defect (instance_part bytes.now) b.line b.kind) }
    ensures each { (i : AnyInstance) → Means (instance_part bytes.now) i → result ≡ Ok (i, length (instance_part bytes.now)) }
    ensures each_bad { (line : ℕ) (kind : AnyKind) → Defect (instance_part bytes.now) line kind → result ≡ Err (bad line kind) }
{
    let taken = length_of_part(bytes);
    let instance = read_instance(&bytes[..taken])?;
    Ok((instance, taken))
}

/// The bytes after the instance part of a text, also where that part means no instance. Takes no
/// memory.
#[tactic(auto, unfolding(crate::specs::Reading::instance_part), using(crate::proofs::PartLemmas::part_fits, crate::proofs::PartLemmas::rest_is))]
pub fn after_instance(bytes: &[u8]) -> &[u8]
    ensures { result.now ≡ after_instance bytes.now }
{
    let taken = length_of_part(bytes);
    &bytes[taken..]
}

/// The instance of the instance part of a text, and the bytes after that part. Refuses as
/// `read_instance_part` does. Takes no memory.
#[tactic(auto, using(crate::proofs::PartLemmas::part_fits, crate::proofs::PartLemmas::rest_is))]
pub fn split_instance(bytes: &[u8]) -> Result<(Instance, &[u8]), Bad>
    ensures read { IfOk result (λ r. Means (instance_part bytes.now) r.0) }
    ensures rest { IfOk result (λ r. r.1.now ≡ after_instance bytes.now) }
    ensures bad { IfErr result (λ b. Defect (instance_part bytes.now) b.line b.kind) }
{
    let (instance, taken) = read_instance_part(bytes)?;
    Ok((instance, &bytes[taken..]))
}
