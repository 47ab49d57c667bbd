//! The version that a certificate is written in.
ghost use Rattle.std.specs.Prelude.{◌≡◌};
ghost use Rattle.cert_text.specs.Versions.{has_prices, has_triples, is_by_clash, is_by_berths, is_outside, has_outside, has_later, name_triples};
ghost use Rattle.cert_text.specs.Versions.{needs_fourth, needs_third, needs_second, version_of};

use crate::heading::{Form, Version};
use crate::marks::is_later;
use certificate_parts::{CertCuts, Certificate, MarkList};
use kept_prices::KeptPrices;
use refute_rules::Refutation;

/// Whether a version has prices.
pub fn has_prices(version: Version) -> bool
    ensures { result ≡ has_prices version }
{
    match version {
        Version::First | Version::Second => false,
        Version::Third | Version::Fourth => true,
    }
}

/// Whether a version has prices of triples.
pub fn has_triples(version: Version) -> bool
    ensures { result ≡ has_triples version }
{
    match version {
        Version::First | Version::Second | Version::Third => false,
        Version::Fourth => true,
    }
}

/// Whether the refutation is a clash.
fn is_by_clash(refutation: &Refutation) -> bool
    ensures { result ≡ is_by_clash refutation.now }
{
    matches!(refutation, Refutation::Clash(_, _))
}

/// Whether the refutation is a berth tree.
fn is_by_berths(refutation: &Refutation) -> bool
    ensures { result ≡ is_by_berths refutation.now }
{
    matches!(refutation, Refutation::Berths(_))
}

/// Whether the refutation is one of a later version.
fn is_outside(version: Version, refutation: &Refutation) -> bool
    ensures { result ≡ is_outside version refutation.now }
{
    match version {
        Version::First => is_by_clash(refutation) || is_by_berths(refutation),
        Version::Second => is_by_berths(refutation),
        Version::Third | Version::Fourth => false,
    }
}

/// Whether some cut has a refutation of a later version.
pub fn has_outside(version: Version, cuts: &CertCuts) -> bool
    ensures { result ≡ has_outside version cuts.now }
{
    for cut in cuts.as_slice() {
        if is_outside(version, &cut.refutation) {
            return true;
        }
    }
    false
}

/// Whether some mark is one of a later version.
fn has_later(version: Version, tree: &MarkList) -> bool
    ensures { result ≡ has_later version tree.now }
{
    for mark in tree.as_slice() {
        if is_later(version, *mark) {
            return true;
        }
    }
    false
}

/// Whether some prices are of triples.
fn name_triples(prices: &[KeptPrices]) -> bool
    ensures { result ≡ name_triples prices.now }
{
    for own in prices {
        if !own.triples().is_empty() {
            return true;
        }
    }
    false
}

/// Whether a certificate with these prices and this tree has a part that no version before the fourth has.
fn needs_fourth(prices: &[KeptPrices], tree: &MarkList) -> bool
    ensures { result ≡ needs_fourth prices.now tree.now }
{
    has_later(Version::Third, tree) || name_triples(prices)
}

/// Whether a certificate with these cuts and prices, and with marks for prices or without, has a part
/// that no version before the third has.
fn needs_third(cuts: &CertCuts, prices: &[KeptPrices], marked: bool) -> bool
    ensures { result ≡ needs_third cuts.now prices.now marked }
{
    !prices.is_empty() || marked || has_outside(Version::Second, cuts)
}

/// Whether a certificate of this form with these cuts is of the second version at least.
fn needs_second(form: Form, cuts: &CertCuts) -> bool
    ensures { result ≡ needs_second form cuts.now }
{
    match form {
        Form::Whole => has_outside(Version::First, cuts),
        Form::Open => true,
    }
}

/// The first version of this form that has all parts of the certificate.
#[tactic(auto, unfolding(crate::specs::Versions::version_of))]
pub(crate) fn version_of(form: Form, certificate: &Certificate) -> Version
    ensures { result ≡ version_of form certificate.now }
{
    let Certificate {
        cuts,
        prices,
        tree,
        ..
    } = certificate;
    if needs_fourth(prices.as_slice(), tree) {
        Version::Fourth
    } else if needs_third(cuts, prices.as_slice(), has_later(Version::Second, tree)) {
        Version::Third
    } else if needs_second(form, cuts) {
        Version::Second
    } else {
        Version::First
    }
}
