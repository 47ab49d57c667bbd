//! The page.
ghost use Rattle.std.specs.Prelude.{◌≡◌, ◌≤◌, ◌<◌, ◌++◌, length, All, OnOk, IfOk};
ghost use Rattle.lock_rules.specs.Plan.{IsLegal};
ghost use Rattle.picture_page.specs.Passages.{IsKnownGo};
ghost use Rattle.picture_page.specs.KnownPassages.{AreKnown, HasChamber, HasShips, IsKnown};
ghost use Rattle.picture_page.specs.Shared.{shared};
ghost use Rattle.picture_page.specs.Ticks.{ticks_of};
ghost use Rattle.picture_page.specs.Page.{page_head, heading, timetable, decks, page_on, page_with, picture};

use crate::axis::Axis;
use crate::cards::put_cards;
use crate::events::events_of;
use crate::form::put_form;
use crate::heads::{Known, put_heading, put_page_head, put_summary};
use crate::lanes::put_chambers;
use crate::legend::put_legend;
use crate::passage::Passage;
use crate::passages::passages_of;
use crate::shared::put_shared;
use crate::ship_rows::put_ships;
use crate::ticks::ticks_of;
use crate::times::{Clock, Dial};
use crate::words::put_plural_between;
use chamber_times::cost;
use day_play::{BEATS, Beat};
use lock_model::{Instance, Plan};
use no_memory::NoMemory;
use std::alloc::Global;

/// Appends the head of the page, the shapes that the rows share, and the heading.
fn put_opening(
    alloc: Global,
    out: &mut Vec<u8>,
    present: Option<u32>,
    known: Known,
    cost: u64,
    axis: &Axis,
) -> Result<(), NoMemory>
    ensures { OnOk result (out.new.items ≡ out.old.items ++ (page_head present known cost ++ shared axis.now (ticks_of axis.now) ++ heading known cost)) }
{
    let ticks = ticks_of(alloc, axis)?;
    put_page_head(out, present, known, cost)?;
    put_shared(out, axis, ticks.as_slice())?;
    put_heading(out, known, cost)
}

/// Appends the chambers and the ships along one axis.
#[tactic(auto, unfolding(crate::specs::Page::timetable))]
fn put_timetable(
    alloc: Global,
    out: &mut Vec<u8>,
    instance: &Instance,
    axis: &Axis,
    passages: &[Passage],
    cost: u64,
) -> Result<(), NoMemory>
    requires chambers { All (HasChamber instance.now) passages.now }
    requires ships { All (HasShips instance.now) passages.now }
    ensures { OnOk result (out.new.items ≡ out.old.items ++ timetable instance.now axis.now passages.now cost) }
{
    put_form(
        out,
        b"<div role=\"region\" aria-label=\"timetable\">\n",
        &[],
    )?;
    put_chambers(alloc, out, instance, axis, passages)?;
    put_ships(out, instance, axis, passages, cost)?;
    put_form(out, b"</div>\n", &[])?;
    put_legend(out, instance, axis)
}

/// Appends the decks and the end of the page.
#[tactic(auto, unfolding(crate::specs::Page::decks))]
fn put_decks(
    out: &mut Vec<u8>,
    instance: &Instance,
    plan: &Plan,
    clock: Clock,
    passages: &[Passage],
) -> Result<(), NoMemory>
    requires { All (IsKnown instance.now plan.now) passages.now }
    ensures { OnOk result (out.new.items ≡ out.old.items ++ decks instance.now plan.now clock passages.now) }
{
    put_plural_between(
        out,
        b"<h2>deck plan",
        passages.len() as u64,
        b"</h2>\n<p class=\"sub\">Each deck numbers its ships in the order in which they come in.</p>\n<div class=\"cards\">\n",
    )?;
    put_cards(out, instance, plan, clock, passages)?;
    put_form(out, b"</div>\n</main>\n</body>\n</html>\n", &[])
}

/// The page of these passages of a plan.
#[tactic(auto, unfolding(crate::specs::Page::page_on), using(lock_rules::proofs::LegalLemmas::of_legal_plans))]
fn page_with(
    alloc: Global,
    known: Known,
    dial: Dial,
    instance: &Instance,
    plan: &Plan,
    passages: &[Passage],
) -> Result<Vec<u8>, NoMemory>
    requires legal { IsLegal instance.now plan.now }
    requires known { AreKnown instance.now plan.now passages.now }
    ensures { IfOk result (λ page. page.items ≡ page_with known dial instance.now plan.now passages.now) }
{
    let total = cost(instance, plan);
    let events = events_of(alloc, dial.present, instance, passages)?;
    let axis = Axis::new(alloc, dial, events.as_slice())?;
    let mut page = Vec::new(alloc);
    put_opening(alloc, &mut page, dial.present, known, total, &axis)?;
    put_summary(
        &mut page,
        dial.clock,
        instance,
        passages.len() as u64,
        events.as_slice(),
    )?;
    put_timetable(alloc, &mut page, instance, &axis, passages, total)?;
    put_decks(&mut page, instance, plan, dial.clock, passages)?;
    Ok(page)
}

/// The picture of a legal plan and its day, as one page of HTML: a lane for each chamber along the
/// clock, a row for each ship, and the deck of each lockage drawn to scale. Where the dial has the minute
/// that it is, a line through lanes and rows shows it, and what has begun before it is drawn with other
/// outlines. The caller says what is known of the plan. The only refusal is want of memory.
#[tactic(auto, unfolding(crate::specs::Page::picture))]
pub fn print_picture(
    alloc: Global,
    known: Known,
    dial: Dial,
    instance: &Instance,
    plan: &Plan,
    day: &[Beat],
) -> Result<Vec<u8>, NoMemory>
    requires legal { IsLegal instance.now plan.now }
    requires known { All (IsKnownGo plan.now) day.now }
    requires few { length day.now ≤ BEATS }
    ensures { IfOk result (λ page. page.items ≡ picture known dial instance.now plan.now day.now) }
{
    let passages = passages_of(alloc, instance, plan, day)?;
    page_with(alloc, known, dial, instance, plan, passages.as_slice())
}
