//! One line of a plan text after its line `plan`.
ghost use Rattle.std.specs.Prelude.{◌≡◌, ◌<◌, length, Ok, Err, IfOk, IfErr};
ghost use Rattle.line_text.specs.Texts.{texts};
ghost use Rattle.plan_text.specs.Lines.{read_head, new_ship, read_berth, add_berth, add_lockage, read_end, read_other, read_line};

use crate::berth::{Berth, Head};
use crate::draft::Draft;
use crate::kinds::{BadPlan, PlanKind, bad};
use crate::moorings::has_berth;
use crate::named::{chamber_named, host, ship_named};
use crate::words::{number, rank, way};
use line_text::{Progress, word_at};
use lock_model::{Instance, MOST, SHIPS};

/// What the line of a lockage says that comes after so many. The first fault is, in this order:
/// `Count`, `Range` for more lockages than a plan text of the instance may have, that of a word from left
/// to right.
#[tactic(auto, unfolding(crate::specs::Lines::read_head))]
fn read_head(instance: &Instance, count: usize, words: &[&[u8]]) -> Result<Head, PlanKind>
    ensures value { result ≡ read_head instance.now count (texts words.now) }
    ensures room { IfOk result (λ h. count < SHIPS) }
{
    if words.len() != 4 {
        return Err(PlanKind::Count);
    }
    if count >= instance.most_lockages() {
        return Err(PlanKind::Range);
    }
    let chamber = chamber_named(instance, word_at(words, 1))?;
    let way = way(word_at(words, 2))?;
    let start = number(word_at(words, 3), 1_000_000_000)?;
    Ok(Head {
        chamber,
        way,
        start,
    })
}

/// The ship of a name that has no berth among these. Refuses with `Unknown`, then with `Twice`.
#[tactic(auto, unfolding(crate::specs::Lines::new_ship))]
fn new_ship(instance: &Instance, berths: &[Berth], word: &[u8]) -> Result<u8, PlanKind>
    ensures { result ≡ new_ship instance.now berths.now word.now }
{
    let ship = ship_named(instance, word)?;
    if has_berth(berths, ship) {
        return Err(PlanKind::Twice);
    }
    Ok(ship)
}

/// The berth of a line that comes after these berths of its lockage. The first fault is, in this
/// order: `Count`, `Range` for a ninth berth, that of a word from left to right.
#[tactic(auto, unfolding(crate::specs::Lines::read_berth))]
fn read_berth(
    instance: &Instance,
    line: u64,
    berths: &[Berth],
    words: &[&[u8]],
) -> Result<Berth, PlanKind>
    ensures value { result ≡ read_berth instance.now line berths.now (texts words.now) }
    ensures room { IfOk result (λ b. length berths.now < MOST) }
{
    if words.len() != 6 {
        return Err(PlanKind::Count);
    }
    if berths.len() >= MOST {
        return Err(PlanKind::Range);
    }
    let ship = new_ship(instance, berths, word_at(words, 1))?;
    let x = number(word_at(words, 2), 100_000)?;
    let y = number(word_at(words, 3), 100_000)?;
    let rank = rank(word_at(words, 4))?;
    let host = host(instance, word_at(words, 5))?;
    Ok(Berth {
        line,
        ship,
        x,
        y,
        rank,
        host,
    })
}

/// Adds the berth of a line. Refuses with `Loose` a berth before any lockage.
#[tactic(auto, unfolding(crate::specs::Lines::add_berth))]
fn add_berth(
    instance: &Instance,
    line: u64,
    draft: &mut Draft,
    words: &[&[u8]],
) -> Result<Progress, PlanKind>
    ensures read { IfOk result (λ p. add_berth instance.now line draft.old (texts words.now) ≡ Ok (p, draft.new)) }
    ensures bad { IfErr result (λ kind. add_berth instance.now line draft.old (texts words.now) ≡ Err kind) }
{
    if !draft.is_open() {
        return Err(PlanKind::Loose);
    }
    let berth = read_berth(instance, line, draft.berths(), words)?;
    draft.push_berth(berth);
    Ok(Progress::More)
}

/// Begins the lockage of a line.
#[tactic(auto, unfolding(crate::specs::Lines::add_lockage))]
fn add_lockage(
    instance: &Instance,
    draft: &mut Draft,
    words: &[&[u8]],
) -> Result<Progress, PlanKind>
    ensures read { IfOk result (λ p. add_lockage instance.now draft.old (texts words.now) ≡ Ok (p, draft.new)) }
    ensures bad { IfErr result (λ kind. add_lockage instance.now draft.old (texts words.now) ≡ Err kind) }
{
    let head = read_head(instance, draft.count(), words)?;
    draft.begin(head);
    Ok(Progress::More)
}

/// The line `end`.
#[tactic(auto, unfolding(crate::specs::Lines::read_end))]
fn read_end(draft: &Draft, words: &[&[u8]]) -> Result<Progress, PlanKind>
    ensures read { IfOk result (λ p. read_end draft.now (texts words.now) ≡ Ok (p, draft.now)) }
    ensures bad { IfErr result (λ kind. read_end draft.now (texts words.now) ≡ Err kind) }
{
    if words.len() != 1 {
        return Err(PlanKind::Count);
    }
    Ok(Progress::Ended)
}

/// Reads a line that is no berth line into a draft whose lockages are whole.
#[tactic(auto, unfolding(crate::specs::Lines::read_other))]
fn read_other(instance: &Instance, draft: &mut Draft, words: &[&[u8]]) -> Result<Progress, PlanKind>
    requires { 0 < length words.now }
    ensures read { IfOk result (λ p. read_other instance.now draft.old (texts words.now) ≡ Ok (p, draft.new)) }
    ensures bad { IfErr result (λ kind. read_other instance.now draft.old (texts words.now) ≡ Err kind) }
{
    let word = word_at(words, 0);
    if word == b"lockage".as_slice() {
        add_lockage(instance, draft, words)
    } else if word == b"end".as_slice() {
        read_end(draft, words)
    } else {
        Err(PlanKind::Word)
    }
}

/// The fault of a line of this number, if it has one.
fn at_line(line: u64, read: Result<Progress, PlanKind>) -> Result<Progress, BadPlan>
    ensures ok { IfOk result (λ p. read ≡ Ok p) }
    ensures err { IfErr result (λ b. b.line ≡ line) }
    ensures kind { IfErr result (λ b. read ≡ Err b.kind) }
{
    match read {
        Ok(progress) => Ok(progress),
        Err(kind) => Err(bad(line, kind)),
    }
}

/// Reads a line into the draft, by its first word. Before a line that is no berth line the lockage
/// before it ends.
#[tactic(auto, unfolding(crate::specs::Lines::read_line))]
pub fn read_line(
    instance: &Instance,
    line: u64,
    draft: &mut Draft,
    words: &[&[u8]],
) -> Result<Progress, BadPlan>
    ensures read { IfOk result (λ p. read_line instance.now line draft.old (texts words.now) ≡ Ok (p, draft.new)) }
    ensures bad { IfErr result (λ b. read_line instance.now line draft.old (texts words.now) ≡ Err b) }
{
    if words.is_empty() {
        return Ok(Progress::More);
    }
    if word_at(words, 0) == b"berth".as_slice() {
        return at_line(line, add_berth(instance, line, draft, words));
    }
    draft.close(instance)?;
    at_line(line, read_other(instance, draft, words))
}
