//! The hulls of a deck.
ghost use Rattle.std.specs.Prelude.{◌≡◌, ◌<◌, ◌++◌, length, All, OnOk};
ghost use Rattle.picture_page.specs.Hulls.{outline, hull_text, hulls};

use crate::berths::{put_berth, ship_of};
use crate::form::{put_between, put_form};
use crate::hulls::{Hull, hull_of};
use crate::scales::DeckScale;
use crate::words::put_measures;
use lock_model::{Instance, Lockage, Way};
use no_memory::NoMemory;

/// Appends the outline of a hull, which is bound this way.
#[tactic(auto, unfolding(crate::specs::Hulls::outline))]
fn put_outline(out: &mut Vec<u8>, way: Way, hull: &Hull) -> Result<(), NoMemory>
    ensures { OnOk result (out.new.items ≡ out.old.items ++ outline way hull.now) }
{
    let (bow, cut) = (hull.bow(), hull.width() / 3);
    let (near, far) = (hull.near as u64 + 3, (hull.far as u64).saturating_sub(3));
    let (top, bottom) = (hull.top as u64 + 3, (hull.bottom as u64).saturating_sub(3));
    let (high, low) = (top + cut, bottom.saturating_sub(cut));
    match way {
        Way::Up => {
            let neck = far.saturating_sub(bow);
            put_form(
                out,
                b"<path class=\"hu\" d=\"M% %H%L% %V%L% %H%Z\"/></g>",
                &[near, top, neck, far, high, low, neck, bottom, near],
            )
        }
        Way::Down => {
            let neck = near + bow;
            put_form(
                out,
                b"<path class=\"hd\" d=\"M% %H%L% %V%L% %H%Z\"/></g>",
                &[far, top, neck, near, high, low, neck, bottom, far],
            )
        }
    }
}

/// Appends the hull of the ship at a place, with what it is.
#[tactic(auto, unfolding(crate::specs::Hulls::hull_text))]
fn put_hull(
    out: &mut Vec<u8>,
    scale: &DeckScale,
    instance: &Instance,
    lockage: &Lockage,
    place: u8,
) -> Result<(), NoMemory>
    requires { All (λ s. s < length instance.now.ships) lockage.now.ships }
    ensures { OnOk result (out.new.items ≡ out.old.items ++ hull_text scale.now instance.now lockage.now place) }
{
    let ship = ship_of(instance, lockage, place);
    put_between(out, b"<g><title>", ship.name.as_slice(), b", ")?;
    put_measures(out, ship.length, ship.width, b", ")?;
    put_berth(out, instance, lockage, place)?;
    put_form(out, b"</title>", &[])?;
    put_outline(out, lockage.way, &hull_of(scale, instance, lockage, place))
}

/// Appends the hulls of a lockage.
#[tactic(auto, unfolding(crate::specs::Hulls::hulls), using(plan_print::proofs::TextLemmas::flat_map_range_more))]
pub(crate) fn put_hulls(
    out: &mut Vec<u8>,
    scale: &DeckScale,
    instance: &Instance,
    lockage: &Lockage,
) -> Result<(), NoMemory>
    requires { All (λ s. s < length instance.now.ships) lockage.now.ships }
    ensures { OnOk result (out.new.items ≡ out.old.items ++ hulls scale.now instance.now lockage.now) }
{
    let count = lockage.ships.len() as u8;
    for place in 0..count {
        put_hull(out, scale, instance, lockage, place)?;
    }
    Ok(())
}
