//! The head and the heading of a page.
ghost use Rattle.std.specs.Prelude.{◌≡◌, ◌++◌, OnOk};
ghost use Rattle.picture_page.specs.Page.{known_word, known_meaning, low_words, bound_words, verdict, page_head};
ghost use Rattle.picture_page.specs.Page.{least_of, greatest_of, span_word, event_span, heading, next_count, summary};

use crate::form::{put_between, put_form};
use crate::style::{STYLE, put_present_style};
use crate::times::{Clock, put_time_after};
use crate::words::put_count;
use lock_model::Instance;
use no_memory::NoMemory;
use plain_text::put;

/// What is known of a plan.
#[derive(Clone, Copy)]
pub enum Known {
    /// It is legal.
    Legal,
    /// It is legal, and no legal plan costs less.
    Optimal,
    /// It is legal, and no legal plan costs less than so many minutes, which are fewer than its cost.
    Open(u64),
}

/// The word for what is known of a plan.
fn known_word(known: Known) -> &'static [u8]
    ensures { result.now ≡ known_word known }
{
    match known {
        Known::Legal => b"legal",
        Known::Optimal => b"optimal",
        Known::Open(_) => b"open",
    }
}

/// What that word means.
fn known_meaning(known: Known) -> &'static [u8]
    ensures { result.now ≡ known_meaning known }
{
    match known {
        Known::Legal => {
            b"Legal: the plan keeps every rule of the lock. Whether another plan takes less is not said."
        }
        Known::Optimal => {
            b"Optimal: the plan keeps every rule of the lock, and it is proved that no plan takes less."
        }
        Known::Open(_) => {
            b"Open: the plan keeps every rule of the lock. Whether another plan takes less is not known."
        }
    }
}

/// Appends what no legal plan costs less than.
fn put_low(out: &mut Vec<u8>, low: u64) -> Result<(), NoMemory>
    ensures { OnOk result (out.new.items ≡ out.old.items ++ low_words low) }
{
    put(out, b"; no plan takes less than ")?;
    put_count(out, low, b"minute")
}

/// Appends what no legal plan costs less than, where that is below the cost.
fn put_bound(out: &mut Vec<u8>, known: Known) -> Result<(), NoMemory>
    ensures { OnOk result (out.new.items ≡ out.old.items ++ bound_words known) }
{
    match known {
        Known::Legal | Known::Optimal => Ok(()),
        Known::Open(low) => put_low(out, low),
    }
}

/// Appends what is known of a plan, and its cost.
#[tactic(auto, unfolding(crate::specs::Page::verdict))]
fn put_verdict(out: &mut Vec<u8>, known: Known, cost: u64) -> Result<(), NoMemory>
    ensures { OnOk result (out.new.items ≡ out.old.items ++ verdict known cost) }
{
    put(out, known_word(known))?;
    put(out, b", total flow time ")?;
    put_count(out, cost, b"minute")?;
    put_bound(out, known)
}

/// Appends the head of the page, with its style sheet.
#[tactic(auto, unfolding(crate::specs::Page::page_head))]
pub(crate) fn put_page_head(
    out: &mut Vec<u8>,
    present: Option<u32>,
    known: Known,
    cost: u64,
) -> Result<(), NoMemory>
    ensures { OnOk result (out.new.items ≡ out.old.items ++ page_head present known cost) }
{
    put_form(
        out,
        b"<!DOCTYPE html>\n<html lang=\"en\">\n<head>\n<meta charset=\"utf-8\">\n<meta name=\"viewport\" content=\"width=device-width,initial-scale=1\">\n<title>glock: ",
        &[],
    )?;
    put_verdict(out, known, cost)?;
    put_form(out, STYLE, &[])?;
    put_present_style(out, present)?;
    put_form(out, b"</style>\n</head>\n<body>\n<main>\n", &[])
}

/// The least of some events.
fn least_of(events: &[u64]) -> u64
    ensures { result ≡ least_of events.now }
{
    match events {
        [] => u64::MAX,
        [event, rest @ ..] => (*event).min(least_of(rest)),
    }
}

/// The greatest of some events.
fn greatest_of(events: &[u64]) -> u64
    ensures { result ≡ greatest_of events.now }
{
    match events {
        [] => 0,
        [event, rest @ ..] => (*event).max(greatest_of(rest)),
    }
}

/// The word before the first minute.
fn span_word(clock: Clock) -> &'static [u8]
    ensures { result.now ≡ span_word clock }
{
    match clock {
        Clock::Minutes => b"minutes ",
        Clock::Day(_) => b"from ",
    }
}

/// Appends the span from the first event to the last.
#[tactic(auto, unfolding(crate::specs::Page::event_span))]
fn put_event_span(out: &mut Vec<u8>, clock: Clock, events: &[u64]) -> Result<(), NoMemory>
    ensures { OnOk result (out.new.items ≡ out.old.items ++ event_span clock events.now) }
{
    put_time_after(out, span_word(clock), clock, least_of(events))?;
    put_time_after(out, b" to ", clock, greatest_of(events))
}

/// Appends the heading: what is known of the plan, and what that means.
#[tactic(auto, unfolding(crate::specs::Page::heading))]
pub(crate) fn put_heading(out: &mut Vec<u8>, known: Known, cost: u64) -> Result<(), NoMemory>
    ensures { OnOk result (out.new.items ≡ out.old.items ++ heading known cost) }
{
    put_form(out, b"<h1>", &[])?;
    put_verdict(out, known, cost)?;
    put_between(
        out,
        b"</h1>\n<p class=\"sub\">",
        known_meaning(known),
        b" Flow time is from a ship&#8217;s arrival to the end of its lockage; flow times and waits are in minutes.</p>\n<p class=\"sub\">",
    )
}

/// Appends a count of things that have this name, after a dot.
fn put_next_count(out: &mut Vec<u8>, count: u64, name: &[u8]) -> Result<(), NoMemory>
    ensures { OnOk result (out.new.items ≡ out.old.items ++ next_count count name.now) }
{
    put_form(out, b" &#183; ", &[])?;
    put_count(out, count, name)
}

/// Appends what a page of so many lockages shows.
#[tactic(auto, unfolding(crate::specs::Page::summary))]
pub(crate) fn put_summary(
    out: &mut Vec<u8>,
    clock: Clock,
    instance: &Instance,
    lockages: u64,
    events: &[u64],
) -> Result<(), NoMemory>
    ensures { OnOk result (out.new.items ≡ out.old.items ++ summary clock instance.now lockages events.now) }
{
    put_event_span(out, clock, events)?;
    put_next_count(out, instance.ships.as_slice().len() as u64, b"ship")?;
    put_next_count(out, lockages, b"lockage")?;
    put_next_count(out, instance.chambers.as_slice().len() as u64, b"chamber")?;
    put_form(out, b"</p>\n", &[])
}
