//! Certificates, whole and open.
use crate::numbered::Numbered;
use certificate_rules::Mark;
use kept_prices::KeptPrices;
use lock_model::{Plan, Ships};
use refute_rules::Refutation;
use std::marker::Model;

/// A cut of a certificate: a chamber and ships by their numbers in the instance, and why they don't
/// fit together.
#[derive(Drop)]
pub struct CertCut {
    pub chamber: u8,
    pub ships: Ships,
    pub refutation: Refutation,
}

impl Model for CertCut {
    ghost use Rattle.closing_rules.specs.ProvedCuts.{CertCut as Held};

    ghost Value = { Held };

    ghost view = { λ a. record { chamber = a.chamber; ships = a.ships; refutation = a.refutation } };
}

/// The cuts of a certificate.
pub type CertCuts = Numbered<CertCut>;

/// The prices of a certificate: each a list of prices of ships, and of triples of them.
pub type PriceLists = Numbered<KeptPrices>;

/// The marks of a certificate: one for each node of its tree, each node before its children.
pub type MarkList = Numbered<Mark>;

/// How much less another plan may cost than this one, and why: the plan and its cost in minutes, cuts
/// with their refutations, prices, numbered from 0, and the marks of a search tree. Where no mark leaves
/// a node open, that the plan is cheapest.
#[derive(Drop)]
pub struct Certificate {
    pub cost: u64,
    pub cuts: CertCuts,
    pub plan: Plan,
    pub prices: PriceLists,
    pub tree: MarkList,
}

impl Model for Certificate {
    ghost use Rattle.certificate_rules.specs.Certificates.{Certificate as Held};

    ghost Value = { Held };

    ghost view = { λ a. record { cost = a.cost; cuts = a.cuts; plan = a.plan; prices = a.prices; tree = a.tree } };
}
