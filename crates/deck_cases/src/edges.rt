//! The difference constraints of a deck and of its options. Variable 0 is the origin; each ship has
//! one for its x and one for its y.
ghost use Rattle.std.specs.Prelude.{◌≡◌, ◌+◌, ◌*◌, ◌≤◌, ◌<◌, ◌-ℤ◌, ◌≤ℤ◌, neg_ℤ, pos, [], ◌∷◌, ◌++◌, length};
ghost use Rattle.lock_model.specs.declared.placement.Moor.TheVariants.{Quay, Ship};
ghost use Rattle.refute_rules.specs.Reasons.{length_at, width_at};
ghost use Rattle.refute_rules.specs.Edges.{choice_edges, berth_edges, ship_edges};
ghost use Rattle.deck_cases.specs.Asked.{IsMoorOfOthers, IsOfDeck};

use diff_rules::Edge;
use lock_model::{Deck, MOST, Moor, Rank};
use refute_rules::{Berth, Choice};

/// A list of edges that grows.
pub trait EdgeList {
    ghost use Rattle.std.specs.Prelude.{ℕ, ◌≡◌, ◌<◌, List, [], ◌∷◌, ◌++◌, length};
    ghost use Rattle.diff_rules.specs.declared.edges.Edge.{Edge as Told};

    /// The edges in order.
    ghost edges: { Self → List Told };

    /// How many edges it has room for.
    ghost most: { ℕ };

    /// Appends an edge.
    fn push(&mut self, edge: Edge)
        requires { length (edges self.old) < most }
        ensures { edges self.new ≡ edges self.old ++ edge ∷ [] };
}

/// The variable of a ship's x.
pub fn x_var(ship: u8) -> u8
    requires { ship < MOST }
    ensures { result ≡ 1 + 2 * ship }
{
    1 + 2 * ship
}

/// The variable of a ship's y.
pub fn y_var(ship: u8) -> u8
    requires { ship < MOST }
    ensures { result ≡ 2 + 2 * ship }
{
    2 + 2 * ship
}

// The length of a ship and the gap.
fn along(deck: &Deck, ship: u8) -> i64
    requires { ship < length deck.now.ships }
    ensures { result ≡ pos (length_at deck.now ship + deck.now.gap) }
{
    (deck.ships.as_slice()[ship as usize].length as u64 + deck.gap as u64) as i64
}

// The width of a ship and the space at its side.
fn across(deck: &Deck, ship: u8) -> i64
    requires { ship < length deck.now.ships }
    ensures { result ≡ pos (width_at deck.now ship + deck.now.side) }
{
    (deck.ships.as_slice()[ship as usize].width as u64 + deck.side as u64) as i64
}

// By how much a ship is longer than another.
fn longer(deck: &Deck, ship: u8, other: u8) -> i64
    requires ship { ship < length deck.now.ships }
    requires other { other < length deck.now.ships }
    ensures { result ≡ pos (length_at deck.now ship) -ℤ pos (length_at deck.now other) }
{
    let sizes = deck.ships.as_slice();
    sizes[ship as usize].length as i64 - sizes[other as usize].length as i64
}

// The room beside a ship.
fn beside(deck: &Deck, ship: u8) -> i64
    requires { ship < length deck.now.ships }
    ensures { result ≡ pos deck.now.width -ℤ pos (width_at deck.now ship) }
{
    deck.width as i64 - deck.ships.as_slice()[ship as usize].width as i64
}

// The last x before the far end.
fn last_along(deck: &Deck) -> i64
    ensures value { result ≡ pos deck.now.length -ℤ pos deck.now.end }
    ensures low { neg_ℤ (pos 4294967295) ≤ℤ result }
    ensures high { result ≤ℤ pos 4294967295 }
{
    deck.length as i64 - deck.end as i64
}

// What a ship's x stays away from the far end, below 0.
fn back_along(deck: &Deck, ship: u8) -> i64
    requires { ship < length deck.now.ships }
    ensures { result ≡ neg_ℤ (pos deck.now.length -ℤ pos deck.now.end -ℤ pos (length_at deck.now ship)) }
{
    let length = deck.ships.as_slice()[ship as usize].length as i64;
    -(last_along(deck) - length)
}

// What a ship's y stays away from the right quay, below 0.
fn back_across(deck: &Deck, ship: u8) -> i64
    requires { ship < length deck.now.ships }
    ensures { result ≡ neg_ℤ (pos deck.now.width -ℤ pos (width_at deck.now ship)) }
{
    let width = deck.ships.as_slice()[ship as usize].width as i64;
    -(deck.width as i64 - width)
}

fn edge(from: u8, to: u8, weight: i64) -> Edge
    ensures { result ≡ record { from = from; to = to; weight = weight } }
{
    Edge { from, to, weight }
}

// Appends four edges.
fn push_four<L: EdgeList>(edges: &mut L, first: Edge, second: Edge, third: Edge, fourth: Edge)
    requires { length (L.edges edges.old) + 4 ≤ L.most }
    ensures { L.edges edges.new ≡ L.edges edges.old ++ first ∷ second ∷ third ∷ fourth ∷ [] }
{
    edges.push(first);
    edges.push(second);
    edges.push(third);
    edges.push(fourth);
}

// The edge of a berth at a quay.
fn quay_edge(deck: &Deck, ship: u8, rank: Rank) -> Edge
    requires ship { ship < length deck.now.ships }
    requires few { ship < MOST }
    ensures { result ∷ [] ≡ berth_edges deck.now ship rank Quay }
{
    match rank {
        Rank::Left => edge(y_var(ship), 0, 0),
        Rank::Right => edge(0, y_var(ship), beside(deck, ship)),
    }
}

// Appends the edges of a berth at a host.
fn push_host<L: EdgeList>(edges: &mut L, deck: &Deck, ship: u8, rank: Rank, host: u8)
    requires room { length (L.edges edges.old) + 4 ≤ L.most }
    requires ship { ship < length deck.now.ships }
    requires host { host < length deck.now.ships }
    requires ship_few { ship < MOST }
    requires host_few { host < MOST }
    ensures { L.edges edges.new ≡ L.edges edges.old ++ berth_edges deck.now ship rank (Ship host) }
{
    let near = edge(x_var(host), x_var(ship), 0);
    let far = edge(x_var(ship), x_var(host), longer(deck, ship, host));
    match rank {
        Rank::Left => {
            let wide = across(deck, host);
            let up = edge(y_var(host), y_var(ship), wide);
            let down = edge(y_var(ship), y_var(host), -wide);
            push_four(edges, up, down, near, far);
        }
        Rank::Right => {
            let wide = across(deck, ship);
            let up = edge(y_var(ship), y_var(host), wide);
            let down = edge(y_var(host), y_var(ship), -wide);
            push_four(edges, up, down, near, far);
        }
    }
}

// Appends the edges of a berth.
fn push_berth<L: EdgeList>(edges: &mut L, deck: &Deck, ship: u8, berth: Berth)
    requires room { length (L.edges edges.old) + 4 ≤ L.most }
    requires few { length deck.now.ships ≤ MOST }
    requires ship { ship < length deck.now.ships }
    requires host { IsMoorOfOthers deck.now ship berth.moor }
    ensures { L.edges edges.new ≡ L.edges edges.old ++ berth_edges deck.now ship berth.rank berth.moor }
{
    match berth.moor {
        Moor::Quay => edges.push(quay_edge(deck, ship, berth.rank)),
        Moor::Ship(host) => push_host(edges, deck, ship, berth.rank, host),
    }
}

/// Appends the edges of an option about ships of the deck.
pub fn push_choice<L: EdgeList>(edges: &mut L, deck: &Deck, choice: Choice)
    requires room { length (L.edges edges.old) + 4 ≤ L.most }
    requires known { IsOfDeck deck.now choice }
    ensures { L.edges edges.new ≡ L.edges edges.old ++ choice_edges deck.now choice }
{
    prove!(deck.ships.as_slice().len() <= MOST);
    match choice {
        Choice::Before(i, j) => edges.push(edge(x_var(i), x_var(j), along(deck, i))),
        Choice::Below(i, j) => edges.push(edge(y_var(i), y_var(j), across(deck, i))),
        Choice::Lies(i, berth) => push_berth(edges, deck, i, berth),
        Choice::LiesAt(_, _) => {}
    }
}

/// Appends the edges that keep a ship inside.
pub fn push_ship<L: EdgeList>(edges: &mut L, deck: &Deck, ship: u8)
    requires room { length (L.edges edges.old) + 4 ≤ L.most }
    requires ship { ship < length deck.now.ships }
    ensures { L.edges edges.new ≡ L.edges edges.old ++ ship_edges deck.now ship }
{
    prove!(deck.ships.as_slice().len() <= MOST);
    let near = edge(0, x_var(ship), deck.end as i64);
    let back = edge(x_var(ship), 0, back_along(deck, ship));
    let low = edge(0, y_var(ship), 0);
    let high = edge(y_var(ship), 0, back_across(deck, ship));
    push_four(edges, near, back, low, high);
}
