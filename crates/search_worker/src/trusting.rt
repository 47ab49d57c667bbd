//! Whether a node is one of the instance.
ghost use Rattle.std.specs.Prelude.{ℕ, ◌≡◌, ◌<◌, ◌↔◌, length, All, IsTrue};
ghost use Rattle.lock_rules.specs.Arrival.{order_of};
ghost use Rattle.lock_rules.specs.Node.{line_at};
ghost use Rattle.master_branch.specs.Node.{IsNodeOf};
ghost use Rattle.search_worker.specs.Owning.{IsOwnShip, IsOwnGroup, IsOwnLine};

use lock_model::{CHAMBERS, Group, Instance, Way};
use master_branch::{Node, ShipOrder};

// Whether a ship is among the first ones, and goes this way.
fn is_own_ship(instance: &Instance, first: &[u8], way: Way, ship: u8) -> bool
    requires { All (λ s. s < length instance.now.ships) first.now }
    ensures { IsTrue result ↔ IsOwnShip instance.now first.now way ship }
{
    first.contains(&ship) && instance.ships.as_slice()[ship as usize].way == way
}

// Whether all ships of a group are.
fn are_own_ships(instance: &Instance, first: &[u8], way: Way, ships: &[u8]) -> bool
    requires { All (λ s. s < length instance.now.ships) first.now }
    ensures { IsTrue result ↔ All (IsOwnShip instance.now first.now way) ships.now }
{
    for &ship in ships {
        if !is_own_ship(instance, first, way, ship) {
            return false;
        }
    }
    true
}

// Whether a chamber that serves so many ships at most may serve this group of the first ships.
fn is_own_group(instance: &Instance, first: &[u8], most: u8, group: &Group) -> bool
    requires { All (λ s. s < length instance.now.ships) first.now }
    ensures { IsTrue result ↔ IsOwnGroup instance.now first.now most group.now }
{
    let ships = group.ships.as_slice();
    let count = ships.len();
    1 <= count && count <= most as usize && are_own_ships(instance, first, group.way, ships)
}

// Whether it may serve each of these groups.
fn are_own_groups(instance: &Instance, first: &[u8], most: u8, line: &[Group]) -> bool
    requires { All (λ s. s < length instance.now.ships) first.now }
    ensures { IsTrue result ↔ All (IsOwnGroup instance.now first.now most) line.now }
{
    for group in line {
        if !is_own_group(instance, first, most, group) {
            return false;
        }
    }
    true
}

// Whether a chamber may serve each group of its line, and has none past the last chamber.
fn is_own_line(instance: &Instance, first: &[u8], chamber: u8, line: &[Group]) -> bool
    requires { All (λ s. s < length instance.now.ships) first.now }
    ensures { IsTrue result ↔ IsOwnLine instance.now first.now chamber line.now }
{
    let chambers = instance.chambers.as_slice();
    if (chamber as usize) < chambers.len() {
        are_own_groups(instance, first, chambers[chamber as usize].most, line)
    } else {
        line.is_empty()
    }
}

// Whether that is so of all lines.
fn are_own_lines(instance: &Instance, first: &[u8], node: &Node) -> bool
    requires { All (λ s. s < length instance.now.ships) first.now }
    ensures { IsTrue result ↔ ((c : ℕ) → c < CHAMBERS → IsOwnLine instance.now first.now c (line_at node.now.lines c)) }
{
    for chamber in 0..4 {
        if !is_own_line(instance, first, chamber, node.line(chamber)) {
            return false;
        }
    }
    true
}

/// Whether a node is one of the instance, whose ships by arrival are given. A node's type keeps that
/// no ship stands twice and how many there are, so it is enough that each ship is among as many first
/// ones. Takes no memory.
#[tactic(auto, using(crate::proofs::OwnLemmas::first_known))]
pub fn is_node_of(order: &ShipOrder, instance: &Instance, node: &Node) -> bool
    requires { order.now ≡ order_of instance.now }
    ensures { IsTrue result ↔ IsNodeOf instance.now node.now }
{
    let depth = node.depth() as usize;
    let order = order.as_slice();
    depth <= order.len() && are_own_lines(instance, &order[..depth], node)
}
