//! The difference constraints of a berth case along the chamber.
ghost use Rattle.std.specs.Prelude.{◌≡◌, ◌+◌, ◌*◌, ◌<◌, ◌≤◌, ◌-ℤ◌, ◌≤ℤ◌, neg_ℤ, pos, [], ◌∷◌, ◌++◌, length};
ghost use Rattle.refute_rules.specs.Reasons.{length_at};
ghost use Rattle.refute_rules.specs.BerthCases.{host_in};
ghost use Rattle.berth_place.specs.Along.{place_var, place_count, inside_edges, host_edges, berth_edges, first_edges, order_edge};
ghost use Rattle.berth_check.specs.Raises.{AreKnown};

use deck_cases::{Choice, host_of, length_of};
use diff_system::{Edge, Edges};
use lock_model::{Deck, MOST};

/// The variable of a ship's x.
pub(crate) fn place_var(ship: u8) -> u8
    requires { ship < MOST }
    ensures { result ≡ place_var ship }
{
    1 + ship
}

/// How many variables a deck has: the origin, and x of each ship.
pub(crate) fn place_count(deck: &Deck) -> u8
    ensures { result ≡ place_count deck.now }
{
    1 + deck.ships.as_slice().len() as u8
}

/// The length of a ship and the gap behind it.
pub(crate) fn along(deck: &Deck, ship: u8) -> i64
    ensures value { result ≡ pos (length_at deck.now ship + deck.now.gap) }
    ensures few { result ≤ℤ pos 8589934592 }
{
    (length_of(deck, ship as u32) as u64 + deck.gap as u64) as i64
}

// The greatest x that keeps a ship inside, with the other sign.
fn back_along(deck: &Deck, ship: u8) -> i64
    ensures { result ≡ neg_ℤ (pos deck.now.length -ℤ pos deck.now.end -ℤ pos (length_at deck.now ship)) }
{
    let room = deck.length as i64 - deck.end as i64 - length_of(deck, ship as u32) as i64;
    -room
}

// By how much a ship is longer than another.
fn longer_by(deck: &Deck, ship: u8, other: u8) -> i64
    ensures { result ≡ pos (length_at deck.now ship) -ℤ pos (length_at deck.now other) }
{
    length_of(deck, ship as u32) as i64 - length_of(deck, other as u32) as i64
}

// Appends the edges that keep a ship inside.
fn add_inside(deck: &Deck, ship: u8, edges: &mut Edges)
    requires few { ship < MOST }
    requires room { length edges.old + 2 ≤ 96 }
    ensures { edges.new ≡ edges.old ++ inside_edges deck.now ship }
{
    edges.push(Edge {
        from: 0,
        to: place_var(ship),
        weight: deck.end as i64,
    });
    edges.push(Edge {
        from: place_var(ship),
        to: 0,
        weight: back_along(deck, ship),
    });
}

// Appends the edges that keep a ship within its host, where that is decided.
#[tactic(auto, using(berth_check::proofs::RaiseLemmas::known_host))]
fn add_host(deck: &Deck, choices: &[Choice], ship: u8, edges: &mut Edges)
    requires few { ship < length deck.now.ships }
    requires known { AreKnown deck.now choices.now }
    requires room { length edges.old + 2 ≤ 96 }
    ensures { edges.new ≡ edges.old ++ host_edges deck.now ship (host_in choices.now ship) }
{
    prove!(deck.ships.as_slice().len() <= MOST);
    if let Some(host) = host_of(choices, ship as u32) {
        edges.push(Edge {
            from: place_var(host),
            to: place_var(ship),
            weight: 0,
        });
        edges.push(Edge {
            from: place_var(ship),
            to: place_var(host),
            weight: longer_by(deck, ship, host),
        });
    }
}

// Appends the edges of a ship's berth.
fn add_berth(deck: &Deck, choices: &[Choice], ship: u8, edges: &mut Edges)
    requires few { ship < length deck.now.ships }
    requires known { AreKnown deck.now choices.now }
    requires room { length edges.old + 4 ≤ 96 }
    ensures value { edges.new ≡ edges.old ++ berth_edges deck.now choices.now ship }
    ensures room { length edges.new ≤ length edges.old + 4 }
{
    prove!(deck.ships.as_slice().len() <= MOST);
    add_inside(deck, ship, edges);
    add_host(deck, choices, ship, edges);
}

/// Appends the edges of all berths of a case.
#[tactic(auto, using(crate::proofs::AlongLemmas::edges_begun, crate::proofs::AlongLemmas::edges_more))]
pub(crate) fn add_berths(deck: &Deck, choices: &[Choice], edges: &mut Edges)
    requires none { edges.old ≡ [] }
    requires known { AreKnown deck.now choices.now }
    ensures value { edges.new ≡ first_edges deck.now choices.now (length deck.now.ships) }
    ensures room { length edges.new ≤ 32 }
{
    prove!(deck.ships.as_slice().len() <= MOST);
    for ship in 0..deck.ships.as_slice().len() as u8 {
        add_berth(deck, choices, ship, edges);
    }
}

/// Appends the edge of an order.
pub(crate) fn add_order(deck: &Deck, first: u8, second: u8, edges: &mut Edges)
    requires first { first < MOST }
    requires second { second < MOST }
    requires room { length edges.old < 96 }
    ensures { edges.new ≡ edges.old ++ order_edge deck.now first second ∷ [] }
{
    edges.push(Edge {
        from: place_var(first),
        to: place_var(second),
        weight: along(deck, first),
    });
}
