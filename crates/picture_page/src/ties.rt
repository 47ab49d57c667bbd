//! How the ships of a deck are tied: to bollards of the quay, or to their hosts.
ghost use Rattle.std.specs.Prelude.{◌≡◌, ◌<◌, ◌^◌, ◌++◌, length, All, OnOk};
ghost use Rattle.picture_page.specs.Ties.{bollard, dotted_line, rope, host_place, tie, near_tie, far_tie, ties_between, ties_at, ties};

use crate::berths::spot_of;
use crate::form::put_form;
use crate::hulls::{Hull, hull_of};
use crate::scales::DeckScale;
use lock_model::{Instance, Lockage, Moor, Rank, Spot, Way};
use no_memory::NoMemory;

/// Appends a bollard on the quay of a rank, with its line to a hull.
#[tactic(auto, unfolding(crate::specs::Ties::bollard))]
fn put_bollard(out: &mut Vec<u8>, rank: Rank, hull: &Hull, x: u64) -> Result<(), NoMemory>
    ensures { OnOk result (out.new.items ≡ out.old.items ++ bollard rank hull.now x) }
{
    let (top, bottom) = (hull.top as u64, hull.bottom as u64);
    let left = x.saturating_sub(16);
    match rank {
        Rank::Left => put_form(
            out,
            b"<rect class=\"bo\" x=\"%\" y=\"%\" width=\"32\" height=\"10\"/><path class=\"ti\" d=\"M% %V%\"/>",
            &[
                left,
                top.saturating_sub(24),
                x,
                top.saturating_sub(19),
                top + 5,
            ],
        ),
        Rank::Right => put_form(
            out,
            b"<rect class=\"bo\" x=\"%\" y=\"%\" width=\"32\" height=\"10\"/><path class=\"ti\" d=\"M% %V%\"/>",
            &[left, bottom + 14, x, bottom + 19, bottom.saturating_sub(5)],
        ),
    }
}

/// Appends a line with a dot at either end, between two heights.
#[tactic(auto, unfolding(crate::specs::Ties::dotted_line))]
fn put_dotted_line(out: &mut Vec<u8>, x: u64, from: u64, to: u64) -> Result<(), NoMemory>
    ensures { OnOk result (out.new.items ≡ out.old.items ++ dotted_line x from to) }
{
    put_form(
        out,
        b"<path class=\"ti\" d=\"M% %V%\"/><circle class=\"bo\" cx=\"%\" cy=\"%\" r=\"7\"/><circle class=\"bo\" cx=\"%\" cy=\"%\" r=\"7\"/>",
        &[x, from, to, x, from, x, to],
    )
}

/// Appends the line from a host to a guest of a rank.
fn put_rope(out: &mut Vec<u8>, rank: Rank, hull: &Hull, host: &Hull, x: u64) -> Result<(), NoMemory>
    ensures { OnOk result (out.new.items ≡ out.old.items ++ rope rank hull.now host.now x) }
{
    match rank {
        Rank::Left => put_dotted_line(
            out,
            x,
            (host.bottom as u64).saturating_sub(8),
            hull.top as u64 + 8,
        ),
        Rank::Right => put_dotted_line(
            out,
            x,
            host.top as u64 + 8,
            (hull.bottom as u64).saturating_sub(8),
        ),
    }
}

/// The place of the host, if any.
fn host_place(moor: Moor) -> u8
    ensures { result ≡ host_place moor }
{
    match moor {
        Moor::Quay => 0,
        Moor::Ship(host) => host,
    }
}

/// Appends a tie of a ship at a spot.
fn put_tie(out: &mut Vec<u8>, spot: &Spot, hull: &Hull, host: &Hull, x: u64) -> Result<(), NoMemory>
    ensures { OnOk result (out.new.items ≡ out.old.items ++ tie spot.now.rank spot.now.moor hull.now host.now x) }
{
    match spot.moor {
        Moor::Quay => put_bollard(out, spot.rank, hull, x),
        Moor::Ship(_) => put_rope(out, spot.rank, hull, host, x),
    }
}

/// Where the near tie of a hull is along the chamber.
fn near_tie(way: Way, hull: &Hull) -> u64
    ensures value { result ≡ near_tie way hull.now }
    ensures small { result < 2 ^ 34 }
{
    match way {
        Way::Up => hull.near as u64 + 20,
        Way::Down => hull.near as u64 + 20 + hull.bow(),
    }
}

/// Where the far tie is.
fn far_tie(way: Way, hull: &Hull) -> u64
    ensures value { result ≡ far_tie way hull.now }
    ensures small { result < 2 ^ 34 }
{
    match way {
        Way::Up => (hull.far as u64)
            .saturating_sub(20)
            .saturating_sub(hull.bow()),
        Way::Down => (hull.far as u64).saturating_sub(20),
    }
}

/// Appends two ties of a ship, or one in the middle where they would be close.
#[tactic(auto, unfolding(crate::specs::Ties::ties_between))]
fn put_ties_between(
    out: &mut Vec<u8>,
    spot: &Spot,
    hull: &Hull,
    host: &Hull,
    near: u64,
    far: u64,
) -> Result<(), NoMemory>
    requires near_small { near < 2 ^ 34 }
    requires far_small { far < 2 ^ 34 }
    ensures { OnOk result (out.new.items ≡ out.old.items ++ ties_between spot.now hull.now host.now near far) }
{
    if far < near + 40 {
        return put_tie(out, spot, hull, host, (near + far) / 2);
    }
    put_tie(out, spot, hull, host, near)?;
    put_tie(out, spot, hull, host, far)
}

/// Appends the ties of the ship at a place.
#[tactic(auto, unfolding(crate::specs::Ties::ties_at))]
fn put_ties_at(
    out: &mut Vec<u8>,
    scale: &DeckScale,
    instance: &Instance,
    lockage: &Lockage,
    place: u8,
) -> Result<(), NoMemory>
    requires { All (λ s. s < length instance.now.ships) lockage.now.ships }
    ensures { OnOk result (out.new.items ≡ out.old.items ++ ties_at scale.now instance.now lockage.now place) }
{
    let spot = spot_of(lockage, place);
    let hull = hull_of(scale, instance, lockage, place);
    let host = hull_of(scale, instance, lockage, host_place(spot.moor));
    let near = near_tie(lockage.way, &hull);
    let far = far_tie(lockage.way, &hull);
    put_ties_between(out, &spot, &hull, &host, near, far)
}

/// Appends the ties of a lockage.
#[tactic(auto, unfolding(crate::specs::Ties::ties), using(plan_print::proofs::TextLemmas::flat_map_range_more))]
pub(crate) fn put_ties(
    out: &mut Vec<u8>,
    scale: &DeckScale,
    instance: &Instance,
    lockage: &Lockage,
) -> Result<(), NoMemory>
    requires { All (λ s. s < length instance.now.ships) lockage.now.ships }
    ensures { OnOk result (out.new.items ≡ out.old.items ++ ties scale.now instance.now lockage.now) }
{
    let count = lockage.ships.len() as u8;
    for place in 0..count {
        put_ties_at(out, scale, instance, lockage, place)?;
    }
    Ok(())
}
