//! The visit of a case and its extensions.
ghost use Rattle.std.specs.Prelude.{◌≡◌, ◌≤◌, length, IfOk};
ghost use Rattle.case_search.specs.Rules.{IsReached};
ghost use Rattle.case_search.specs.Visits.{IsVisit};

use crate::tracks::Track;
use no_memory::NoMemory;
use refute_rules::Marks;

/// What a visit ends with.
#[derive(Clone, Copy, PartialEq, Eq)]
pub(crate) enum Visit {
    /// The case and all its extensions are refuted.
    Refuted,
    /// The track holds a whole case.
    Whole,
    /// One turn more was wanted.
    Spent,
}

/// Ends a faulty case: appends its fault to the marks.
fn end_faulty<T: Track>(
    track: &T,
    fault: &T::Fault,
    turns: u32,
    used: &mut u32,
    marks: &mut Marks,
) -> Result<Visit, NoMemory>
    requires fault { (T.rules (T.deck track.now)).IsFault (T.case track.now) fault.now }
    requires reached { IsReached (T.rules (T.deck track.now)).IsGood (T.case track.now) }
    requires used { used.old ≤ turns }
    ensures few { IfOk result (λ visit. used.new ≤ turns) }
    ensures visit { IfOk result (IsVisit (T.rules (T.deck track.now)) (T.case track.now) turns used.old used.new marks.old marks.new (T.case track.now)) }
{
    let cost = track.counts_faulty() as u32;
    if turns - *used < cost {
        return Ok(Visit::Spent);
    }
    *used += cost;
    track.write_fault(fault, marks)?;
    Ok(Visit::Refuted)
}

/// Visits the case and its extensions, and appends their tree to the marks.
pub(crate) fn explore<T: Track>(
    track: &mut T,
    turns: u32,
    used: &mut u32,
    marks: &mut Marks,
) -> Result<Visit, NoMemory>
    requires room { length (T.case track.old) ≤ length (T.rules (T.deck track.old)).decisions }
    requires reached { IsReached (T.rules (T.deck track.old)).IsGood (T.case track.old) }
    requires used { used.old ≤ turns }
    ensures deck { T.deck track.new ≡ T.deck track.old }
    ensures few { IfOk result (λ visit. used.new ≤ turns) }
    ensures visit { IfOk result (IsVisit (T.rules (T.deck track.old)) (T.case track.old) turns used.old used.new marks.old marks.new (T.case track.new)) }
{
    if let Some(fault) = track.judge() {
        return end_faulty(track, &fault, turns, used, marks);
    }
    if *used >= turns {
        return Ok(Visit::Spent);
    }
    *used += 1;
    if track.is_whole() {
        return Ok(Visit::Whole);
    }
    marks.push(0)?;
    for option in 0..track.count() {
        track.enter(option);
        let inner = explore(track, turns, used, marks)?;
        if inner != Visit::Refuted {
            return Ok(inner);
        }
        track.leave();
    }
    Ok(Visit::Refuted)
}
