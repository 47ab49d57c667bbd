//! Reading plan texts.
ghost use Rattle.std.specs.Prelude.{◌≡◌, List, ℕ, map, Ok, Err, IfOk, IfErr, OnOk};
ghost use Rattle.line_text.specs.Lines.{lines, words};
ghost use Rattle.lock_model.specs.declared.plan.Lockage.{Lockage as AnyLockage};
ghost use Rattle.lock_model.specs.declared.plan.Plan.{Plan as AnyPlan};
ghost use Rattle.plan_text.specs.declared.kinds.PlanKind.{PlanKind as AnyKind};
ghost use Rattle.plan_text.specs.Draft.{no_draft};
ghost use Rattle.plan_text.specs.Lines.{read_line};
ghost use Rattle.plan_text.specs.Faults.{bad};
ghost use Rattle.plan_text.specs.Reading.{read_lines, read_lines_left, read_body_left, read_rest_left, without_end, reading, IsPlanText, IsPlanFault};

use crate::draft::Draft;
use crate::kinds::{BadPlan, PlanKind, bad};
use crate::line::read_line;
use line_text::{Lines, Progress, check_utf8, is_only, words_of};
use lock_model::{Instance, Plan};

/// The fault of the last line that was taken.
fn bad_line(lines: &Lines<'_>, kind: PlanKind) -> BadPlan
    ensures { result ≡ bad lines.now.number kind }
{
    bad(lines.number(), kind)
}

/// Refuses bytes that are not UTF-8.
#[tactic(auto, unfolding(crate::specs::Reading::reading))]
fn check_text(instance: &Instance, bytes: &[u8]) -> Result<(), BadPlan>
    ensures text { OnOk result (reading instance.now bytes.now ≡ read_lines instance.now 0 (map words (lines bytes.now))) }
    ensures bad { IfErr result (λ b. reading instance.now bytes.now ≡ Err b) }
{
    match check_utf8(bytes) {
        Ok(()) => Ok(()),
        Err(line) => Err(bad(line, PlanKind::NotUtf8)),
    }
}

/// The line `plan`.
fn read_mark(instance: &Instance, lines: &mut Lines<'_>) -> Result<(), BadPlan>
    ensures read { OnOk result (read_lines_left instance.now lines.old ≡ read_body_left instance.now no_draft lines.new) }
    ensures bad { IfErr result (λ b. read_lines_left instance.now lines.old ≡ Err b) }
{
    let Some(line) = lines.next_filled() else {
        return Err(bad_line(lines, PlanKind::NoMark));
    };
    if !is_only(line, b"plan") {
        return Err(bad_line(lines, PlanKind::NoMark));
    }
    Ok(())
}

/// Reads line `number` into the draft.
fn read_words(
    instance: &Instance,
    number: u64,
    draft: &mut Draft,
    line: &[u8],
) -> Result<Progress, BadPlan>
    ensures read { IfOk result (λ p. read_line instance.now number draft.old (words line.now) ≡ Ok (p, draft.new)) }
    ensures bad { IfErr result (λ b. read_line instance.now number draft.old (words line.now) ≡ Err b) }
{
    read_line(instance, number, draft, words_of(line).as_slice())
}

/// What is wrong where no line `end` comes.
#[tactic(auto, unfolding(crate::specs::Reading::without_end))]
fn without_end(instance: &Instance, draft: &mut Draft, lines: &Lines<'_>) -> BadPlan
    ensures { without_end instance.now lines.now.number draft.old ≡ Err result }
{
    match draft.close(instance) {
        Ok(()) => bad_line(lines, PlanKind::NoEnd),
        Err(fault) => fault,
    }
}

/// Reads the lines from the line `plan` up to `end` into the draft.
fn read_body(instance: &Instance, draft: &mut Draft, lines: &mut Lines<'_>) -> Result<(), BadPlan>
    ensures read { OnOk result (read_body_left instance.now draft.old lines.old ≡ read_rest_left draft.new.lockages lines.new) }
    ensures bad { IfErr result (λ b. read_body_left instance.now draft.old lines.old ≡ Err b) }
{
    while let Some(line) = lines.next() {
        match read_words(instance, lines.number(), draft, line)? {
            Progress::More => {}
            Progress::Ended => return Ok(()),
        }
    }
    Err(without_end(instance, draft, lines))
}

/// Refuses a line with words after `end`.
fn read_rest(lines: &mut Lines<'_>) -> Result<(), BadPlan>
    ensures read { OnOk result ((ls : List AnyLockage) → read_rest_left ls lines.old ≡ Ok ls) }
    ensures bad { IfErr result (λ b. (ls : List AnyLockage) → read_rest_left ls lines.old ≡ Err b) }
{
    match lines.next_filled() {
        Some(_) => Err(bad_line(lines, PlanKind::Word)),
        None => Ok(()),
    }
}

/// What a text means. Answers the first fault exactly where it names no plan.
fn read_text(instance: &Instance, bytes: &[u8]) -> Result<Plan, BadPlan>
    ensures read { IfOk result (λ plan. reading instance.now bytes.now ≡ Ok plan.lockages) }
    ensures bad { IfErr result (λ b. reading instance.now bytes.now ≡ Err b) }
{
    check_text(instance, bytes)?;
    let mut lines = Lines::new(bytes);
    read_mark(instance, &mut lines)?;
    let mut draft = Draft::new();
    read_body(instance, &mut draft, &mut lines)?;
    read_rest(&mut lines)?;
    Ok(draft.into_plan())
}

/// The plan of a plan text, which stands in the bytes after the instance part. Answers the first
/// fault exactly where the bytes are no plan text. The plan need not be legal. Takes no memory.
pub fn read_plan(instance: &Instance, bytes: &[u8]) -> Result<Plan, BadPlan>
    ensures read { IfOk result (IsPlanText instance.now bytes.now) }
    ensures bad { IfErr result (λ b. IsPlanFault instance.now bytes.now b.line b.kind) }
    ensures each { (plan : AnyPlan) → IsPlanText instance.now bytes.now plan → result ≡ Ok plan }
    ensures each_bad { (line : ℕ) (kind : AnyKind) → IsPlanFault instance.now bytes.now line kind → result ≡ Err (bad line kind) }
{
    read_text(instance, bytes)
}
