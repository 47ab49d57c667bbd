//! The scales of decks.
ghost use Rattle.std.specs.Prelude.{◌≡◌, ◌≤◌, ◌<◌, ◌^◌};
ghost use Rattle.picture_page.specs.Scales.{units_of, own_scale, is_smaller, is_quarter, smaller_of, least_scale, serves_all, deck_scale};

use lock_model::Chamber;

/// The greatest length of a drawn chamber, in units.
const MOST_LENGTH: u16 = 1776;

/// Its greatest width.
const MOST_WIDTH: u16 = 800;

/// The greatest length of anything drawn.
const MOST: u64 = 100_000;

/// So many units, each a quarter of a pixel, for so many decimetres.
#[derive(Clone, Copy)]
pub(crate) struct DeckScale {
    pub(crate) units: u16,
    pub(crate) decimetres: u32,
}

/// A length in units.
pub(crate) fn units_of(scale: &DeckScale, decimetres: u64) -> u32
    requires { decimetres < 2 ^ 40 }
    ensures value { result ≡ units_of scale.now decimetres }
    ensures small { result ≤ 100000 }
{
    (decimetres * scale.units as u64 / (scale.decimetres as u64).max(1)).min(MOST) as u32
}

/// The greatest scale at which a chamber has room.
fn own_scale(chamber: &Chamber) -> DeckScale
    ensures { result ≡ own_scale chamber.now }
{
    if MOST_LENGTH as u64 * chamber.width as u64 <= MOST_WIDTH as u64 * chamber.length as u64 {
        DeckScale {
            units: MOST_LENGTH,
            decimetres: chamber.length,
        }
    } else {
        DeckScale {
            units: MOST_WIDTH,
            decimetres: chamber.width,
        }
    }
}

/// Whether a scale is smaller than another.
fn is_smaller(scale: &DeckScale, other: &DeckScale) -> bool
    ensures { result ≡ is_smaller scale.now other.now }
{
    (scale.units as u64 * other.decimetres as u64) < other.units as u64 * scale.decimetres as u64
}

/// Whether a scale is at least a quarter of another.
fn is_quarter(scale: &DeckScale, other: &DeckScale) -> bool
    ensures { result ≡ is_quarter scale.now other.now }
{
    other.units as u64 * scale.decimetres as u64 <= 4 * scale.units as u64 * other.decimetres as u64
}

/// The smaller of two scales.
fn smaller_of(scale: DeckScale, other: DeckScale) -> DeckScale
    ensures { result ≡ smaller_of scale other }
{
    if is_smaller(&other, &scale) {
        other
    } else {
        scale
    }
}

/// The smallest of a scale and those of chambers.
fn least_scale(scale: DeckScale, chambers: &[Chamber]) -> DeckScale
    ensures { result ≡ least_scale scale chambers.now }
{
    match chambers {
        [] => scale,
        [chamber, rest @ ..] => least_scale(smaller_of(scale, own_scale(chamber)), rest),
    }
}

/// Whether a scale is at least a quarter of that of each chamber.
fn serves_all(scale: &DeckScale, chambers: &[Chamber]) -> bool
    ensures { result ≡ serves_all scale.now chambers.now }
{
    match chambers {
        [] => true,
        [chamber, rest @ ..] => {
            is_quarter(scale, &own_scale(chamber)) && serves_all(scale, rest)
        }
    }
}

/// The scale of a chamber: the smallest of all where that serves all, else its own.
#[tactic(auto, unfolding(crate::specs::Scales::deck_scale))]
pub(crate) fn deck_scale(chambers: &[Chamber], chamber: &Chamber) -> DeckScale
    ensures { result ≡ deck_scale chambers.now chamber.now }
{
    let own = own_scale(chamber);
    let least = least_scale(own, chambers);
    if serves_all(&least, chambers) {
        least
    } else {
        own
    }
}
