//! One round of the search for spot values: from a ship at a known place to the places where
//! another ship may be held by it.
ghost use Rattle.std.specs.Prelude.{◌+◌, ◌<◌, ◌≤◌, length};
ghost use Rattle.deck_laws.specs.Reach.{IsPlace, IsBehind, IsFlush, IsFlushOf, IsStepBy, IsStepOf, IsStepAfter, IsNextOf, AreReached};

use lock_model::{Deck, MOST};

// Notes the round at a place, unless that is before the near end, past the table, or reached already.
fn reach(deck: &Deck, rounds: &mut [Option<u8>], place: u32, round: u8)
    ensures { AreReached rounds.old rounds.new round (IsPlace deck.now place) }
{
    let at = place as usize;
    if deck.end <= place && at < rounds.len() && rounds[at].is_none() {
        rounds[at] = Some(round);
    }
}

// The place tight behind ship j at v.
fn reach_behind(deck: &Deck, rounds: &mut [Option<u8>], v: u32, j: u8, round: u8)
    requires place { v ≤ 100000 }
    requires known { j < length deck.now.ships }
    ensures { AreReached rounds.old rounds.new round (IsBehind deck.now v j) }
{
    let ship = &deck.ships.as_slice()[j as usize];
    reach(deck, rounds, v + ship.length + deck.gap, round);
}

// The place where ship i has the far end of ship j at v, if that is another ship.
fn reach_flush(deck: &Deck, rounds: &mut [Option<u8>], v: u32, j: u8, i: u8, round: u8)
    requires place { v ≤ 100000 }
    requires known { j < length deck.now.ships }
    requires guest { i < length deck.now.ships }
    ensures { AreReached rounds.old rounds.new round (IsFlush deck.now v j i) }
{
    let sizes = deck.ships.as_slice();
    let far = v + sizes[j as usize].length;
    let own = sizes[i as usize].length;
    if i != j && own <= far {
        reach(deck, rounds, far - own, round);
    }
}

// The places where any ship has the far end of another ship j at v.
fn reach_all_flush(deck: &Deck, rounds: &mut [Option<u8>], v: u32, j: u8, round: u8)
    requires place { v ≤ 100000 }
    requires known { j < length deck.now.ships }
    ensures { AreReached rounds.old rounds.new round (IsFlushOf deck.now v j (length deck.now.ships)) }
{
    let count = deck.ships.as_slice().len() as u8;
    for i in 0..count {
        reach_flush(deck, rounds, v, j, i, round);
    }
}

// The places one step from ship j at v.
fn reach_by(deck: &Deck, rounds: &mut [Option<u8>], v: u32, j: u8, round: u8)
    requires place { v ≤ 100000 }
    requires known { j < length deck.now.ships }
    ensures { AreReached rounds.old rounds.new round (IsStepBy deck.now v j) }
{
    reach_behind(deck, rounds, v, j, round);
    reach_all_flush(deck, rounds, v, j, round);
}

// The places one step from any ship at v.
fn reach_from(deck: &Deck, rounds: &mut [Option<u8>], v: u32, round: u8)
    requires place { v ≤ 100000 }
    ensures { AreReached rounds.old rounds.new round (IsStepOf deck.now v (length deck.now.ships)) }
{
    let count = deck.ships.as_slice().len() as u8;
    for j in 0..count {
        reach_by(deck, rounds, v, j, round);
    }
}

// The places one step from v, if the round before this one reached v first.
fn reach_after(deck: &Deck, rounds: &mut [Option<u8>], v: u32, before: u8)
    requires place { v ≤ 100000 }
    requires inside { v < length rounds.old }
    requires few { before < MOST }
    ensures { AreReached rounds.old rounds.new (before + 1) (IsStepAfter deck.now rounds.old before v) }
{
    if rounds[v as usize] == Some(before) {
        reach_from(deck, rounds, v, before + 1);
    }
}

// The next round: the places one step from those that the round before it reached first. Places
// that were reached earlier need no second look, since the rounds between have made their steps.
pub(crate) fn reach_next(deck: &Deck, rounds: &mut [Option<u8>], before: u8)
    requires size { length rounds.old ≤ 100001 }
    requires few { before < MOST }
    ensures { AreReached rounds.old rounds.new (before + 1) (IsNextOf deck.now rounds.old before (length rounds.old)) }
{
    let count = rounds.len() as u32;
    for v in 0..count {
        reach_after(deck, rounds, v, before);
    }
}
