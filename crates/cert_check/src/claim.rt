//! What the marks of a certificate are held against.
ghost use Rattle.std.specs.Prelude.{◌≡◌, All};
ghost use Rattle.lock_rules.specs.Throughput.{throughput_of};
ghost use Rattle.flow_bounds.specs.Roster.{IsRosterOf};
ghost use Rattle.price_terms.specs.Cuts.{plain_cuts};
ghost use Rattle.closing_rules.specs.ProvedCuts.{IsShaped};
ghost use Rattle.certificate_rules.specs.Certificates.{cuts_in};

use certificate_parts::CertCut;
use flow_bounds::Roster;
use kept_prices::KeptPrices;
use lock_model::Instance;
use price_terms::ChamberCut;

// What the marks of a certificate are held against: the instance, its roster and its throughput, and
// the cost in minutes, the prices and the cuts of the certificate, each cut about a chamber and ships
// of the instance, and the cuts as prices see them.
#[derive(Drop)]
pub(crate) struct Claim<'c> {
    pub(crate) instance: &'c Instance,
    pub(crate) roster: &'c Roster,
    pub(crate) throughput: u64,
    pub(crate) cost: u64,
    pub(crate) cuts: &'c [CertCut],
    pub(crate) prices: &'c [KeptPrices],
    pub(crate) chamber_cuts: &'c [ChamberCut],
    pub(crate) ghost rostered: { IsRosterOf instance.now roster.now },
    pub(crate) ghost told: { throughput ≡ throughput_of instance.now },
    pub(crate) ghost shaped: { All (IsShaped instance.now) cuts.now },
    pub(crate) ghost same_cuts: { plain_cuts instance.now chamber_cuts.now ≡ cuts_in instance.now cuts.now },
}
