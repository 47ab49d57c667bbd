//! Minutes, told in digits or as times of day.
ghost use Rattle.std.specs.Prelude.{[], ◌≡◌, ◌++◌, ◌<◌, ◌≤◌, ◌^◌, OnOk, length, decimal};
ghost use Rattle.picture_page.specs.Forms.{filled};
ghost use Rattle.picture_page.specs.Times.{offset_of, day_text, hours_text, day_time_text, time_text};

use crate::form::put_form;
use itoa::Buffer;
use no_memory::NoMemory;
use plain_text::put_number;

/// How a minute is told: in digits, or as a time of day where minute 0 is so many minutes after
/// midnight.
#[derive(Clone, Copy)]
pub enum Clock {
    Minutes,
    Day(u16),
}

impl Clock {
    /// The time of day of minute 0, in minutes.
    pub(crate) fn offset(self) -> u64
        ensures value { result ≡ offset_of self }
        ensures small { result < 2 ^ 16 }
    {
        match self {
            Clock::Minutes => 0,
            Clock::Day(offset) => offset as u64,
        }
    }
}

/// How minutes are told, and the minute that it is, where a page is to show it.
#[derive(Clone, Copy)]
pub struct Dial {
    pub clock: Clock,
    pub present: Option<u32>,
}

/// The minutes of a day.
const DAY: u64 = 1440;

/// How many digits a number has.
pub(crate) fn digits(number: u64) -> u64
    ensures value { result ≡ length (decimal number) }
    ensures small { result ≤ 40 }
{
    let mut buffer = Buffer::new();
    buffer.format(number).len() as u64
}

/// Appends how many days it is after the first, and a space.
fn put_day(out: &mut Vec<u8>, day: u64) -> Result<(), NoMemory>
    ensures { OnOk result (out.new.items ≡ out.old.items ++ day_text day) }
{
    if day == 0 {
        return Ok(());
    }
    put_form(out, b"+% ", &[day])
}

/// How many characters that has.
#[tactic(auto, using(crate::proofs::TimeLemmas::of_widths))]
fn day_width(day: u64) -> u64
    ensures value { result ≡ length (day_text day) }
    ensures small { result ≤ 42 }
{
    if day == 0 { 0 } else { digits(day) + 2 }
}

/// Appends a time of day in hours and minutes.
fn put_hours(out: &mut Vec<u8>, time: u64) -> Result<(), NoMemory>
    ensures { OnOk result (out.new.items ≡ out.old.items ++ hours_text time) }
{
    let numbers = [time / 600, time / 60 % 10, time % 60 / 10, time % 10];
    put_form(out, b"%%:%%", &numbers)
}

/// Appends a minute as a time of day, after the count of days where it is on a later day than the
/// first.
#[tactic(auto, unfolding(crate::specs::Times::day_time_text))]
fn put_day_time(out: &mut Vec<u8>, offset: u16, minute: u64) -> Result<(), NoMemory>
    ensures { OnOk result (out.new.items ≡ out.old.items ++ day_time_text offset minute) }
{
    let time = minute % DAY + offset as u64;
    put_day(out, minute / DAY + time / DAY)?;
    put_hours(out, time % DAY)
}

/// Appends a minute as the clock tells it.
pub(crate) fn put_time(out: &mut Vec<u8>, clock: Clock, minute: u64) -> Result<(), NoMemory>
    ensures { OnOk result (out.new.items ≡ out.old.items ++ time_text clock minute) }
{
    match clock {
        Clock::Minutes => put_number(out, minute),
        Clock::Day(offset) => put_day_time(out, offset, minute),
    }
}

/// Appends a minute as the clock tells it, after a text.
pub(crate) fn put_time_after(
    out: &mut Vec<u8>,
    before: &[u8],
    clock: Clock,
    minute: u64,
) -> Result<(), NoMemory>
    ensures { OnOk result (out.new.items ≡ out.old.items ++ (filled before.now [] ++ time_text clock minute)) }
{
    put_form(out, before, &[])?;
    put_time(out, clock, minute)
}

/// How many characters a time of day has.
#[tactic(auto, using(crate::proofs::TimeLemmas::of_widths))]
fn day_time_width(offset: u16, minute: u64) -> u64
    ensures value { result ≡ length (day_time_text offset minute) }
    ensures small { result ≤ 47 }
{
    let time = minute % DAY + offset as u64;
    day_width(minute / DAY + time / DAY) + 5
}

/// How many characters a minute has as the clock tells it.
pub(crate) fn time_width(clock: Clock, minute: u64) -> u64
    ensures value { result ≡ length (time_text clock minute) }
    ensures small { result ≤ 47 }
{
    match clock {
        Clock::Minutes => digits(minute),
        Clock::Day(offset) => day_time_width(offset, minute),
    }
}
