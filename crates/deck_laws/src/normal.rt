//! Normal placements: every ship is pushed to the near end until something anchored holds it.
ghost use Rattle.std.specs.Prelude.{◌≡◌, ◌+◌, ◌<◌, ◌≤◌, ◌⊎◌, ℕ, true, false, length, IfSome, IfNone};
ghost use Rattle.lock_model.specs.Placement.{IsLegalPlacement, spot_at};
ghost use Rattle.lock_model.specs.Normal.{IsNormal};
ghost use Rattle.lock_model.specs.declared.placement.Moor.TheVariants.{Ship as ToShip};
ghost use Rattle.deck_laws.specs.Slack.{Keeps, HasRoom, IsTightBy, IsTight, IsLeastSlack, IsLeastTo, done_in};
ghost use Rattle.deck_laws.specs.Shift.{shifted, shift_from, AreNoFarther};

use lock_model::{Deck, MOST, Moor, Spot, Spots};

// Whether a ship is moored to ship j.
fn is_moored_to(spot: &Spot, j: u8) -> bool
    ensures yes { result ≡ true → spot.now.moor ≡ ToShip j }
    ensures moored { spot.now.moor ≡ ToShip j → result ≡ true }
{
    match spot.moor {
        Moor::Quay => false,
        Moor::Ship(k) => k == j,
    }
}

// The less of s and, where the limit applies, what is between a and b.
fn gap_if(applies: bool, a: u64, b: u64, s: u64) -> u64
    requires { applies ≡ true → a ≤ b }
    ensures less { result ≤ s }
    ensures kept { applies ≡ true → a + result ≤ b }
    ensures tight { (result ≡ s) ⊎ ((applies ≡ true) × (b ≡ a + result)) }
{
    if applies && b - a < s { b - a } else { s }
}

// The less of s and the slack of ship i against ship j.
fn less_by(deck: &Deck, spots: &[Spot], i: u8, j: u8, s: u64) -> u64
    requires legal { IsLegalPlacement deck.now spots.now }
    requires i_known { i < length deck.now.ships }
    requires j_known { j < length deck.now.ships }
    ensures less { result ≤ s }
    ensures keeps { Keeps deck.now spots.now i j result }
    ensures tight { (result ≡ s) ⊎ IsTightBy deck.now spots.now i j result }
{
    let sizes = deck.ships.as_slice();
    let own = &sizes[i as usize];
    let other = &sizes[j as usize];
    let p = &spots[i as usize];
    let q = &spots[j as usize];
    let end = q.x as u64 + other.length as u64;
    let behind = end + deck.gap as u64;
    let first = gap_if(behind <= p.x as u64, behind, p.x as u64, s);
    let second = gap_if(is_moored_to(p, j), q.x as u64, p.x as u64, first);
    gap_if(
        is_moored_to(q, i),
        end,
        p.x as u64 + own.length as u64,
        second,
    )
}

// The less of s and the slack of ship i against ship j, if that is done.
fn less_if_done(deck: &Deck, spots: &[Spot], done: bool, i: u8, j: u8, s: u64) -> u64
    requires legal { IsLegalPlacement deck.now spots.now }
    requires i_known { i < length deck.now.ships }
    requires j_known { j < length deck.now.ships }
    ensures less { result ≤ s }
    ensures keeps { done ≡ true → Keeps deck.now spots.now i j result }
    ensures tight { (result ≡ s) ⊎ ((done ≡ true) × IsTightBy deck.now spots.now i j result) }
{
    if done {
        less_by(deck, spots, i, j, s)
    } else {
        s
    }
}

// The slack of ship i against the near end and the ships that are done.
#[tactic(auto, using(crate::proofs::SlackLemmas::slack_begun, crate::proofs::SlackLemmas::slack_more, crate::proofs::SlackLemmas::slack_whole))]
fn slack(deck: &Deck, spots: &[Spot], done: &[bool], i: u8) -> u64
    requires legal { IsLegalPlacement deck.now spots.now }
    requires flags { length spots.now ≤ length done.now }
    requires i_known { i < length deck.now.ships }
    ensures room { HasRoom deck.now spots.now (done_in done.now) i result }
    ensures tight { IsTight deck.now spots.now (done_in done.now) i result }
{
    let spot = &spots[i as usize];
    let mut s = spot.x as u64 - deck.end as u64;
    let count = spots.len() as u8;
    for j in 0..count {
        s = less_if_done(deck, spots, done[j as usize], i, j, s);
    }
    s
}

// The better of a ship with its slack and ship i.
#[tactic(auto, using(crate::proofs::SlackLemmas::least_skip, crate::proofs::SlackLemmas::least_keep, crate::proofs::SlackLemmas::least_take))]
fn better(deck: &Deck, spots: &[Spot], done: &[bool], i: u8, ship: u8, s: u64) -> (u8, u64)
    requires legal { IsLegalPlacement deck.now spots.now }
    requires flags { length spots.now ≤ length done.now }
    requires i_known { i < length deck.now.ships }
    requires least { IsLeastTo deck.now spots.now (done_in done.now) i ship s }
    ensures { IsLeastTo deck.now spots.now (done_in done.now) (i + 1) result.0 result.1 }
{
    if done[i as usize] {
        return (ship, s);
    }
    let own = slack(deck, spots, done, i);
    if own < s {
        return (i, own);
    }
    (ship, s)
}

// A ship with the least slack of those that aren't done, and its slack; the first one given isn't done.
#[tactic(auto, using(crate::proofs::SlackLemmas::least_begun, crate::proofs::SlackLemmas::least_whole))]
fn least_slack(deck: &Deck, spots: &[Spot], done: &[bool], first: u8) -> (u8, u64)
    requires legal { IsLegalPlacement deck.now spots.now }
    requires flags { length spots.now ≤ length done.now }
    requires known { first < length deck.now.ships }
    requires free { done_in done.now first ≡ false }
    ensures { IsLeastSlack deck.now spots.now (done_in done.now) result.0 result.1 }
{
    let mut best = (first, slack(deck, spots, done, first));
    let count = deck.ships.as_slice().len() as u8;
    for i in 0..count {
        best = better(deck, spots, done, i, best.0, best.1);
    }
    best
}

// The first of the ships that isn't done.
fn first_free(done: &[bool], count: u8) -> Option<u8>
    requires { count ≤ length done.now }
    ensures none { IfNone result ((i : ℕ) → i < count → done_in done.now i ≡ true) }
    ensures some { IfSome result (λ i. (i < count) × (done_in done.now i ≡ false)) }
{
    for i in 0..count {
        if !done[i as usize] {
            return Some(i);
        }
    }
    None
}

// A spot moved by s, unless its ship is done.
fn shifted(done: bool, s: u64, spot: &Spot) -> Spot
    requires { done ≡ false → s ≤ spot.now.x }
    ensures { result ≡ shifted done s spot.now }
{
    let x = if done {
        spot.x
    } else {
        (spot.x as u64 - s) as u32
    };
    Spot {
        x,
        y: spot.y,
        rank: spot.rank,
        moor: spot.moor,
    }
}

// The spots of the ships that aren't done moved by s.
#[tactic(auto, using(crate::proofs::SlackLemmas::shift_step, crate::proofs::SlackLemmas::shift_few))]
fn shift(spots: &[Spot], done: &[bool], s: u64) -> Spots
    requires few { length spots.now ≤ MOST }
    requires flags { length spots.now ≤ length done.now }
    requires room { (i : ℕ) → i < length spots.now → done_in done.now i ≡ false → s ≤ (spot_at spots.now i).x }
    ensures { result ≡ shift_from (done_in done.now) s 0 spots.now }
{
    let mut moved = Spots::new();
    for i in 0..spots.len() {
        moved.push(shifted(done[i], s, &spots[i]));
    }
    moved
}

/// Moves legal spots towards the near end until every ship is anchored. In each round the ships
/// that aren't known to be anchored move together, by the least amount that makes one more of them
/// anchored. Ranks, moorings and y stay, no x grows, and the result is a normal placement. Takes no
/// memory.
#[tactic(auto, using(crate::proofs::RoundLemmas::round_begun, crate::proofs::RoundLemmas::round_more, crate::proofs::RoundLemmas::round_room))]
pub fn normalise(deck: &Deck, spots: &mut Spots)
    requires legal { IsLegalPlacement deck.now spots.old }
    ensures normal { IsNormal deck.now spots.new }
    ensures kept { AreNoFarther spots.old spots.new }
{
    let count = deck.ships.as_slice().len() as u8;
    let mut done = [false; MOST];
    for _ in 0..count {
        match first_free(&done, count) {
            None => return,
            Some(first) => {
                let (ship, s) = least_slack(deck, spots.as_slice(), &done, first);
                *spots = shift(spots.as_slice(), &done, s);
                done[ship as usize] = true;
            }
        }
    }
}
