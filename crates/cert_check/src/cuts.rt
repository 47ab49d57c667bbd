//! The cuts of a certificate: whether each is proved.
ghost use Rattle.std.specs.Prelude.{◌↔◌, All, IsTrue, IfOk, IfNone, IfSome};
ghost use Rattle.closing_rules.specs.ProvedCuts.{IsShaped, IsProved};
ghost use Rattle.certificate_rules.specs.Failures.{CutFails};
ghost use Rattle.cert_check.specs.Cuts.{IsUnproved};

use certificate_parts::CertCut;
use certificate_rules::Reason;
use lock_model::{Instance, deck_of};
use mooring_rules::has_ships;
use no_memory::NoMemory;
use place_refute::check_refutation;
use std::alloc::Global;

// Whether the cut names a chamber and one or more ships of the instance.
fn is_shaped(instance: &Instance, cut: &CertCut) -> bool
    ensures { IsTrue result ↔ IsShaped instance.now cut.now }
{
    let ships = cut.ships.as_slice();
    (cut.chamber as usize) < instance.chambers.as_slice().len()
        && !ships.is_empty()
        && has_ships(instance, ships)
}

// Why the cut isn't proved, if it isn't.
fn judge_cut(alloc: Global, instance: &Instance, cut: &CertCut) -> Result<Option<Reason>, NoMemory>
    ensures none { IfOk result (λ why. IfNone why (IsProved instance.now cut.now)) }
    ensures some { IfOk result (λ why. IfSome why (IsUnproved instance.now cut.now)) }
{
    if !is_shaped(instance, cut) {
        return Ok(Some(Reason::CutShape));
    }
    let deck = deck_of(instance, cut.chamber, &cut.ships);
    if check_refutation(alloc, &deck, &cut.refutation)? {
        Ok(None)
    } else {
        Ok(Some(Reason::CutUnproved))
    }
}

// The first cut that isn't proved, by its number, and why. None where all cuts are proved. Inlined, what it
// needs would be on the stack while the marks are read.
#[inline(never)]
pub(crate) fn first_unproved(
    alloc: Global,
    instance: &Instance,
    cuts: &[CertCut],
) -> Result<Option<(u64, Reason)>, NoMemory>
    ensures none { IfOk result (λ first. IfNone first (All (IsProved instance.now) cuts.now)) }
    ensures some { IfOk result (λ first. IfSome first (λ f. CutFails instance.now cuts.now f.0 f.1)) }
{
    for (number, cut) in cuts.iter().enumerate() {
        if let Some(reason) = judge_cut(alloc, instance, cut)? {
            return Ok(Some((number as u64, reason)));
        }
    }
    Ok(None)
}
