//! The prices of a certificate: their form, and the cuts as they see them.
ghost use Rattle.std.specs.Prelude.{◌≡◌, All, IfOk, IfNone, IfSome};
ghost use Rattle.price_terms.specs.Cuts.{plain_cuts};
ghost use Rattle.closing_rules.specs.ListedPrices.{AreShapedPrices};
ghost use Rattle.certificate_rules.specs.Certificates.{cuts_in};
ghost use Rattle.certificate_rules.specs.Failures.{PricesFail};
ghost use Rattle.certificate_rules.specs.declared.certificate.Reason.{Reason as Why};

use certificate_parts::CertCut;
use kept_prices::KeptPrices;
use lock_model::Instance;
use price_terms::ChamberCut;
use std::alloc::{AllocError, Global};

// The first prices that aren't one for each ship and of triples of these, by their number. None where all
// are.
pub(crate) fn first_misshaped(instance: &Instance, prices: &[KeptPrices]) -> Option<u64>
    ensures none { IfNone result (All (AreShapedPrices instance.now) prices.now) }
    ensures some { IfSome result (λ number. PricesFail instance.now prices.now number Why.PricesShape) }
{
    let count = instance.ships.as_slice().len();
    for (number, own) in prices.iter().enumerate() {
        if !own.are_of(count) {
            return Some(number as u64);
        }
    }
    None
}

// The chamber and the ships of each cut of an instance: what prices see of it. Refuses want of
// memory alone.
pub(crate) fn chamber_cuts(
    alloc: Global,
    instance: &Instance,
    cuts: &[CertCut],
) -> Result<Vec<ChamberCut>, AllocError>
    ensures { IfOk result (λ seen. plain_cuts instance.now seen.items ≡ cuts_in instance.now cuts.now) }
{
    let mut seen = Vec::with_capacity(alloc, cuts.len())?;
    for cut in cuts {
        seen.push(ChamberCut {
            chamber: cut.chamber,
            ships: cut.ships.copy(),
        })?;
    }
    Ok(seen)
}
