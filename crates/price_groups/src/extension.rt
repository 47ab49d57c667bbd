//! What groups are grown and weighed by.
ghost use Rattle.std.specs.Prelude.{◌<◌, length};
ghost use Rattle.price_terms.specs.Cuts.{plain_cuts};
ghost use Rattle.price_groups.specs.Growing.{AreBelow};
ghost use Rattle.price_groups.specs.Sparing.{AreForbidden};
ghost use Rattle.price_groups.specs.Sums.{AreRates};

use crate::completable_sets::CompletableSets;
use crate::line_case::LineCase;
use lock_model::Ships;
use price_terms::Prices;

/// What groups are grown and weighed by: the case; the ship sets that its cuts forbid in its chamber, and
/// for each ship those that have it, as numbers; what each ship counts in what a group pays; and how many
/// groups there may be, before it is refused that a ship joins one more.
#[derive(Drop)]
pub struct Extension<'a> {
    pub case: &'a LineCase<'a>,
    pub sets: &'a [Ships],
    /// For each ship the sets that it may complete.
    pub completable: &'a [CompletableSets],
    /// What each ship counts: 100 times its arrival, and its price where the node lacks it.
    pub rates: &'a [u32],
    /// Prices that are no lower, by which groups are left out as they grow, and what each ship counts
    /// by these.
    pub ceilings: &'a Prices,
    pub high_rates: &'a [u32],
    pub most: usize,
    pub ghost rated: { AreRates case.now.instance.now case.now.depth case.now.prices.now (length case.now.instance.now.ships) rates.now },
    pub ghost high_rated: { AreRates case.now.instance.now case.now.depth ceilings.now (length case.now.instance.now.ships) high_rates.now },
    pub ghost below: { AreBelow case.now.prices.now ceilings.now },
    pub ghost forbids: { AreForbidden case.now.instance.now case.now.index (plain_cuts case.now.instance.now case.now.cuts.now) sets.now },
}
