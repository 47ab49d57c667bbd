//! Least lines that are kept for later calls.
ghost use Rattle.std.specs.Prelude.{◌≡◌, ◌<◌, ◌↔◌, length, slice_index_or, IfOk, IfSome, IsTrue};
ghost use Rattle.std.specs.Bool.{OnTrue};
ghost use Rattle.price_bound.specs.declared.keeping.KeptLine.{KeptLine};
ghost use Rattle.price_groups.specs.Asked.{line_asked};
ghost use Rattle.price_bound.specs.Keeping.{IsFound, AreUnder, IsOf, AreAllKept};
ghost use Rattle.price_bound.specs.KeptGroups.{AreAllGroupsFor};

use crate::kept_groups::KeptGroups;
use crate::terms::Terms;
use lock_model::Group;
use price_groups::LineCase;
use price_terms::{Limits, LooseLine, PriceError, copied};
use std::alloc::Global;
use std::marker::Model;

// Once so many lines are kept, or the last one has more groups than this, all are forgotten.
const MOST_LINES: usize = 100;

const MOST_GROUPS: usize = 100;

// A chamber's line at a node, and a loose line of it of the least worth, if there is a loose one.
#[derive(Drop)]
pub(crate) struct KeptLine {
    chamber: u8,
    line: Vec<Group>,
    least: Option<LooseLine>,
}

// Whether two lines are the same.
fn same_line(one: &[Group], other: &[Group]) -> bool
    ensures { IsTrue result ↔ one.now ≡ other.now }
{
    one == other
}

impl KeptLine {
    // Whether it is of the chamber and the line of a case.
    fn is_of(&self, case: &LineCase) -> bool
        ensures { OnTrue result (IsOf case.now.index case.now.line.now self.now) }
    {
        self.chamber == case.index && same_line(&self.line, case.line)
    }

    // How many groups its least line has.
    fn count_groups(&self) -> usize {
        match &self.least {
            Some(line) => line.groups.len(),
            None => 0,
        }
    }
}

// The place of the line of a case among these, if it is there.
fn place_of(kept: &[KeptLine], case: &LineCase) -> Option<usize>
    ensures place { IfSome result (λ place. place < length kept.now) }
    ensures is { IfSome result (λ place. (default : KeptLine) → IsOf case.now.index case.now.line.now (slice_index_or kept.now place default)) }
{
    for (place, line) in kept.iter().enumerate() {
        if line.is_of(case) {
            return Some(place);
        }
    }
    None
}

// Whether no more of these are to be kept.
fn are_many(kept: &[KeptLine]) -> bool {
    match kept {
        [.., last] => kept.len() >= MOST_LINES || last.count_groups() > MOST_GROUPS,
        [] => false,
    }
}

// A least line of the chamber of a case, worked out.
fn worked_out(
    alloc: Global,
    groups: &mut KeptGroups,
    case: &LineCase,
    limits: Limits,
) -> Result<KeptLine, PriceError>
    requires { AreAllGroupsFor case.now.instance.now case.now.depth case.now.cuts.now groups.old }
    ensures keeps { AreAllGroupsFor case.now.instance.now case.now.depth case.now.cuts.now groups.new }
    ensures is { IfOk result (IsOf case.now.index case.now.line.now) }
    ensures found { IfOk result (λ kept. IsFound (line_asked case.now) kept.least) }
{
    Ok(KeptLine {
        chamber: case.index,
        line: copied(alloc, case.line)?,
        least: groups.least(alloc, case, limits)?,
    })
}

/// Least lines that were worked out, kept for later calls by the same instance, depth, prices and cuts,
/// and the groups that they were made from, kept for calls by other prices and more cuts; a call by
/// others forgets them. They help speed alone: with anything kept a call finds the same sums, but for its
/// limits, which aren't asked of what is kept; where several lines are least, which one it gives may hang
/// on what is kept. At most 100 lines are kept, in less than 200 kilobytes besides a copy of the cuts and
/// what the last line takes. Of each chamber, for each way and each group of a line, as many groups are
/// kept as the limits allow, or as grow where there are none, 28 bytes each.
#[derive(Drop)]
pub struct KeptLines {
    alloc: Global,
    terms: Option<Terms>,
    lines: Vec<KeptLine>,
    groups: KeptGroups,
}

impl Model for KeptLines {
    ghost use Rattle.std.specs.declared.option.Option.{Option};
    ghost use Rattle.price_bound.specs.declared.terms.Terms.{Terms};
    ghost use Rattle.price_bound.specs.Keeping.{AreAllKept};

    ghost Value = { Option Terms };

    ghost view = { λ a. a.terms };

    ghost invariant = { λ a. AreAllKept a.terms a.lines.items a.groups };
}

impl KeptLines {
    /// None yet.
    pub fn new(alloc: Global) -> KeptLines {
        KeptLines {
            alloc,
            terms: None,
            lines: Vec::new(alloc),
            groups: KeptGroups::new(alloc),
        }
    }

    // The allocator.
    pub(crate) fn alloc(&self) -> Global {
        self.alloc
    }

    // Whether the lines are kept under the terms of a case.
    fn are_under(&self, case: &LineCase) -> bool
        ensures { OnTrue result (AreUnder case.now.instance.now case.now.depth case.now.prices.now case.now.cuts.now self.now) }
    {
        match &self.terms {
            Some(terms) => terms.are_of(case),
            None => false,
        }
    }

    // Goes under the terms of a case: what is kept under others is forgotten, but groups are kept where
    // only the prices differ or cuts came behind the others.
    fn go_under(&mut self, case: &LineCase) -> Result<(), PriceError>
        ensures { IfOk result (λ _. AreUnder case.now.instance.now case.now.depth case.now.prices.now case.now.cuts.now self.new) }
    {
        if self.are_under(case) {
            return Ok(());
        }
        self.lines.clear();
        match &mut self.terms {
            Some(terms) if terms.lead_to(case) => terms.go_on(case),
            _ => {
                self.groups.clear();
                let terms = Terms::new(self.alloc, case)?;
                self.terms = Some(terms);
                Ok(())
            }
        }
    }

    // Forgets what is kept once it is much, unless the line of a case is among it.
    fn make_room(&mut self, case: &LineCase)
        ensures { self.new ≡ self.old }
    {
        if are_many(&self.lines) && place_of(&self.lines, case).is_none() {
            self.lines.clear();
        }
    }

    // A loose line of the chamber of a case of the least worth, if there is a loose one: as it is kept,
    // or else it is worked out and kept.
    pub(crate) fn least(
        &mut self,
        case: &LineCase,
        limits: Limits,
    ) -> Result<&Option<LooseLine>, PriceError>
        ensures { IfOk result (λ found. IsFound (line_asked case.now) found.now) }
    {
        self.go_under(case)?;
        self.make_room(case);
        if let Some(place) = place_of(&self.lines, case) {
            return Ok(&self.lines[place].least);
        }
        let kept = worked_out(self.alloc, &mut self.groups, case, limits)?;
        let place = self.lines.len();
        match self.lines.push(kept) {
            Ok(()) => Ok(&self.lines[place].least),
            Err(_) => Err(PriceError::NoMemory),
        }
    }
}
