//! What a successor is worth that comes next, and what a line's own groups are worth alone.
ghost use Rattle.std.specs.Prelude.{◌≡◌, ◌+◌, ◌*◌, ◌<◌, ◌≤◌, ◌≤ℤ◌, ◌-ℤ◌, neg_ℤ, pos, true, length, All, max, ◌+ℤ◌, IsTrue, None};
ghost use Rattle.std.specs.Int.{int_min};
ghost use Rattle.price_groups.specs.Asked.{line_asked};
ghost use Rattle.price_groups.specs.Asks.{line_worth};
ghost use Rattle.price_groups.specs.Worth.{IsKeptGroup};
ghost use Rattle.price_successors.specs.Successors.{IsSuccessor};
ghost use Rattle.price_table.specs.Values.{minute_for, most_worth, IsReady, end_next, worth_next, worth_alone};

use crate::ready::Ready;
use crate::state::State;
use chamber_times::{flow_until, group_times, stand_after};
use lock_model::{Group, MOST, SHIPS};
use price_groups::{LineCase, charged};
use price_successors::Successor;

/// The minute at which a successor ends that comes next, and what it is worth, in hundredths of a
/// minute.
#[derive(Clone, Copy)]
pub(crate) struct Served {
    pub(crate) end: u64,
    pub(crate) worth: i64,
}

// The product of a number of ships and a minute.
#[inline(always)]
fn product(count: u64, end: u64) -> u64
    requires count { count ≤ MOST }
    requires end { end ≤ 30000000 }
    ensures value { result ≡ count * end }
    ensures small { result ≤ 240000000 }
{
    count * end
}

// A successor that ends at a minute.
#[inline(always)]
fn ended(successor: &Successor, end: u64) -> Served
    requires end { end ≤ 30000000 }
    requires fair { successor.now.pays ≤ 808000000 }
    requires light { successor.now.charged ≤ 255000000 }
    ensures end { result.end ≡ end }
    ensures worth { result.worth ≡ (pos (100 * (length successor.now.group.ships * end) + successor.now.charged) -ℤ pos successor.now.pays) }
    ensures low { neg_ℤ (pos 808000000) ≤ℤ result.worth }
    ensures high { result.worth ≤ℤ pos 30000000000 }
{
    let sum = product(successor.group.ships.len() as u64, end);
    Served {
        end,
        worth: (100 * sum + successor.charged as u64) as i64 - successor.pays as i64,
    }
}

/// Serves a successor next.
#[inline(always)]
pub(crate) fn serve(case: &LineCase, ready: &Ready, successor: &Successor) -> Served
    requires is { IsSuccessor (line_asked case.now) successor.now }
    requires ready { IsReady case.now.instance.now case.now.index ready.now }
    requires minute { ready.now.state.minute ≤ 14000000 }
    ensures end { result.end ≡ end_next (line_asked case.now) ready.now.state successor.now.group }
    ensures worth { result.worth ≡ worth_next (line_asked case.now) ready.now.state successor.now.group }
    ensures small { result.end ≤ max ready.now.state.minute 1000000 + 12000000 }
    ensures low { neg_ℤ (pos 808000000) ≤ℤ result.worth }
    ensures high { result.worth ≤ℤ pos 30000000000 }
{
    let long = successor.duration as u64;
    let from = ready.minute(successor.group.way).max(successor.last as u64);
    ended(successor, ready.first_free(case, long, from) + long)
}

/// Serves a successor next in a chamber without closures that may be ready for it at a minute.
#[inline(always)]
pub(crate) fn serve_open(
    case: &LineCase,
    ready: &Ready,
    minute: u64,
    successor: &Successor,
) -> Served
    requires is { IsSuccessor (line_asked case.now) successor.now }
    requires ready { IsReady case.now.instance.now case.now.index ready.now }
    requires minute { ready.now.state.minute ≤ 14000000 }
    requires open { ready.now.always_open ≡ true }
    requires first { minute ≡ minute_for ready.now successor.now.group.way }
    ensures end { result.end ≡ end_next (line_asked case.now) ready.now.state successor.now.group }
    ensures worth { result.worth ≡ worth_next (line_asked case.now) ready.now.state successor.now.group }
    ensures small { result.end ≤ max ready.now.state.minute 1000000 + 12000000 }
    ensures low { neg_ℤ (pos 808000000) ≤ℤ result.worth }
    ensures high { result.worth ≤ℤ pos 30000000000 }
{
    let from = minute.max(successor.last as u64);
    ended(successor, from + successor.duration as u64)
}

// What some of the line's own groups are worth alone, with what they are charged, in hundredths of a
// minute.
fn alone_on(case: &LineCase, state: &State, line: &[Group]) -> i64
    requires kept { All (IsKeptGroup case.now.instance.now case.now.depth) line.now }
    requires ships_in { All (λ g. All (λ s. s < length case.now.instance.now.ships) g.ships) line.now }
    requires few { length line.now ≤ SHIPS }
    requires minute { state.now.minute ≤ 14000000 }
    ensures value { result ≡ line_worth (line_asked case.now) state.now.stand state.now.minute line.now }
    ensures low { pos 0 ≤ℤ result }
    ensures high { result ≤ℤ pos most_worth }
{
    let mut stand = state.stand;
    let mut minute = state.minute;
    let mut flow = 0;
    let mut charges = 0;
    for group in line {
        let (_, end) = group_times(case.instance, case.index, stand, minute, group);
        flow += flow_until(case.instance, &group.ships, end);
        charges += charged(case.prices, &group.ships) as u64;
        stand = stand_after(group.way);
        minute = end;
    }
    (100 * flow + charges) as i64
}

/// What the line's own groups from the state's place on are worth alone, in hundredths of a minute.
pub(crate) fn alone(case: &LineCase, state: State) -> i64
    requires place { state.place ≤ length case.now.line.now }
    requires minute { state.minute ≤ 14000000 }
    ensures value { result ≡ worth_alone (line_asked case.now) state }
    ensures low { pos 0 ≤ℤ result }
    ensures high { result ≤ℤ pos most_worth }
{
    alone_on(case, &state, &case.line[state.place as usize..])
}

/// Whether a successor may be left out: missing ships alone that gain nothing.
#[inline(always)]
pub(crate) fn is_idle(successor: &Successor, worth: i64) -> bool
    ensures { IsTrue result → (successor.now.joins ≡ None) × (pos 0 ≤ℤ worth) }
{
    successor.joins.is_none() && worth >= 0
}

/// The lesser of a value and of what a successor comes to with the value behind it.
#[inline(always)]
pub(crate) fn lesser(best: i64, worth: i64, behind: i64) -> i64
    requires worth_low { neg_ℤ (pos 1000000000000000) ≤ℤ worth }
    requires worth_high { worth ≤ℤ pos 1000000000000000 }
    requires behind_low { neg_ℤ (pos 1000000000000000) ≤ℤ behind }
    requires behind_high { behind ≤ℤ pos 1000000000000000 }
    ensures { result ≡ int_min best (worth +ℤ behind) }
{
    best.min(worth + behind)
}
