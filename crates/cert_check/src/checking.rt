//! The checker: whether a certificate stands, and its low, or its first failure.
ghost use Rattle.std.specs.Prelude.{◌≡◌, ◌↔◌, ℕ, All, IsTrue, IfOk, IfErr, IfNone, IfSome};
ghost use Rattle.lock_rules.specs.Plan.{IsLegal, cost_of};
ghost use Rattle.lock_rules.specs.Node.{root};
ghost use Rattle.closing_rules.specs.ProvedCuts.{IsProved};
ghost use Rattle.certificate_rules.specs.Certificates.{Stands};
ghost use Rattle.certificate_rules.specs.Low.{IsLow};
ghost use Rattle.certificate_rules.specs.Failures.{Fails};
ghost use Rattle.certificate_rules.specs.declared.certificate.FailurePlace.{FailurePlace as Place};
ghost use Rattle.certificate_rules.specs.declared.certificate.Reason.{Reason as Why};
ghost use Rattle.cert_check.specs.FirstFailure.{HoldBeforeMarks, FailBeforeMarks, IsLowBy, FailsBy, IsLowOfTree, FailsInTree};
ghost use Rattle.cert_check.specs.Proven.{IsProvenLow, ProvesCheapest, StandsWith};
ghost use Rattle.cert_check.specs.Reading.{IsStuck, IsReadLow};

use crate::answers::Answer;
use crate::claim::Claim;
use crate::cuts::first_unproved;
use crate::prices::{chamber_cuts, first_misshaped};
use crate::reading::{Reading, read_tree};
use crate::workspace::Workspace;
use certificate_parts::{CertCuts, Certificate};
use certificate_rules::{FailurePlace, Mark, Reason};
use chamber_times::cost;
use deck_laws::{heredity, normal_form};
use flow_bounds::{Roster, throughput};
use kept_prices::KeptPrices;
use lock_model::{Instance, Plan};
use master_branch::root;
use mooring_rules::judge_plan;
use no_memory::NoMemory;
use std::alloc::Global;

// Whether the plan is legal.
fn is_legal(instance: &Instance, plan: &Plan) -> bool
    ensures { IsTrue result ↔ IsLegal instance.now plan.now }
{
    judge_plan(instance, plan).is_none()
}

// Whether a legal plan costs so much.
fn costs(instance: &Instance, plan: &Plan, wanted: u64) -> bool
    requires { IsLegal instance.now plan.now }
    ensures { IsTrue result ↔ (cost_of instance.now plan.now ≡ wanted) }
{
    cost(instance, plan) == wanted
}

// The first failure of what comes before the marks of a certificate: its plan, then its cost in
// minutes, then its cuts in order, then its prices in order. None where the plan is legal and costs as
// much, each cut is proved, and each prices are one for each ship and of triples of these.
fn first_failure_before_marks(
    alloc: Global,
    instance: &Instance,
    cost: u64,
    cuts: &CertCuts,
    prices: &[KeptPrices],
    plan: &Plan,
) -> Result<Option<(FailurePlace, Reason)>, NoMemory>
    ensures none { IfOk result (λ first. IfNone first (HoldBeforeMarks instance.now cost cuts.now prices.now plan.now)) }
    ensures some { IfOk result (λ first. IfSome first (λ f. FailBeforeMarks instance.now cost cuts.now prices.now plan.now f.0 f.1)) }
{
    if !is_legal(instance, plan) {
        return Ok(Some((FailurePlace::Plan, Reason::PlanIllegal)));
    }
    if !costs(instance, plan, cost) {
        return Ok(Some((FailurePlace::Cost, Reason::CostWrong)));
    }
    if let Some((number, reason)) = first_unproved(alloc, instance, cuts.as_slice())? {
        return Ok(Some((FailurePlace::Cut(number), reason)));
    }
    if let Some(number) = first_misshaped(instance, prices) {
        return Ok(Some((FailurePlace::Prices(number), Reason::PricesShape)));
    }
    Ok(None)
}

// The low of marks, or the number of the mark where they fail first, and why.
type LowOrFailure = Result<u64, (u64, Reason)>;

// Reads a tree of the root, with a workspace of its own.
fn read_root<'m>(alloc: Global, claim: &Claim, marks: &'m [Mark]) -> Result<Reading<'m>, NoMemory>
    ensures read { IfOk result (λ reading. IfOk reading (λ read. IsReadLow claim.now root claim.now.cost marks.now read.marks.now read.low)) }
    ensures stuck { IfOk result (λ reading. IfErr reading (λ stuck. IsStuck claim.now root marks.now stuck.marks.now stuck.reason)) }
{
    let mut space = Workspace::boxed(alloc)?;
    read_tree(claim, &root(claim.instance), claim.cost, marks, &mut *space)
}

// The low of marks that are one tree of the root, or their first failure, by the number of the
// mark where it comes.
fn low_of_marks(alloc: Global, claim: &Claim, marks: &[Mark]) -> Result<LowOrFailure, NoMemory>
    ensures low { IfOk result (λ told. IfOk told (IsLowBy claim.now marks.now)) }
    ensures failure { IfOk result (λ told. IfErr told (λ f. FailsBy claim.now marks.now f.0 f.1)) }
{
    let read = match read_root(alloc, claim, marks)? {
        Ok(read) => read,
        Err(stuck) => return Ok(Err(((marks.len() - stuck.marks.len()) as u64, stuck.reason))),
    };
    if read.marks.is_empty() {
        Ok(Ok(read.low))
    } else {
        Ok(Err(((marks.len() - read.marks.len()) as u64, Reason::TreeLong)))
    }
}

// The same of the marks of a certificate whose cuts are proved.
fn low_of(
    alloc: Global,
    instance: &Instance,
    certificate: &Certificate,
) -> Result<LowOrFailure, NoMemory>
    requires { All (IsProved instance.now) certificate.now.cuts }
    ensures low { IfOk result (λ told. IfOk told (IsLowOfTree instance.now certificate.now)) }
    ensures failure { IfOk result (λ told. IfErr told (λ f. FailsInTree instance.now certificate.now f.0 f.1)) }
{
    let roster = Roster::of(instance);
    let cuts = certificate.cuts.as_slice();
    let chamber_cuts = chamber_cuts(alloc, instance, cuts)?;
    let claim = Claim {
        instance,
        roster: &roster,
        throughput: throughput(instance),
        cost: certificate.cost,
        cuts,
        prices: certificate.prices.as_slice(),
        chamber_cuts: chamber_cuts.as_slice(),
    };
    low_of_marks(alloc, &claim, certificate.tree.as_slice())
}

// The low of a certificate that stands, or its first failure.
fn low_or_failure(
    alloc: Global,
    instance: &Instance,
    certificate: &Certificate,
) -> Result<Result<u64, (FailurePlace, Reason)>, NoMemory>
    ensures ok { IfOk result (λ told. IfOk told (λ low. Stands instance.now certificate.now × IsLow instance.now certificate.now low)) }
    ensures err { IfOk result (λ told. IfErr told (λ f. Fails instance.now certificate.now f.0 f.1)) }
{
    let Certificate {
        cost,
        cuts,
        plan,
        prices,
        ..
    } = certificate;
    let prices = prices.as_slice();
    if let Some(first) = first_failure_before_marks(alloc, instance, *cost, cuts, prices, plan)? {
        return Ok(Err(first));
    }
    match low_of(alloc, instance, certificate)? {
        Ok(low) => Ok(Ok(low)),
        Err((number, reason)) => Ok(Err((FailurePlace::Tree(number), reason))),
    }
}

/// Checks a certificate of an instance without any search of nodes: its plan, then its cost, then its cuts
/// in order, then its prices in order, then its marks in order, each mark once. An open leaf ends its
/// node, unless it names prices that aren't there.
///
/// `Stands` exactly where the certificate stands, with its low and its cost in minutes; then its plan is
/// legal and costs as much, and every legal plan costs at least the low. Where it leaves no node open as
/// well, it is accepted: the low is the cost, and no legal plan costs less. `Rejected` exactly with the
/// first place and reason at which it fails. Places are numbered from 0. Refuses want of memory alone; a
/// sweep that takes more than 4,000,000 labels, or 600,000 groups at once, counts as that.
pub fn check(
    alloc: Global,
    instance: &Instance,
    certificate: &Certificate,
) -> Result<Answer, NoMemory>
    ensures stands { IfOk result (λ answer. (low cost : ℕ) → (answer ≡ Answer.Stands low cost) ↔ StandsWith instance.now certificate.now low cost) }
    ensures rejected { IfOk result (λ answer. (p : Place) (r : Why) → (answer ≡ Answer.Rejected p r) ↔ Fails instance.now certificate.now p r) }
    ensures proves { IfOk result (λ answer. (low cost : ℕ) → answer ≡ Answer.Stands low cost → IsProvenLow instance.now certificate.now.plan low cost) }
    ensures cheapest { IfOk result (λ answer. (low cost : ℕ) → answer ≡ Answer.Stands low cost → ProvesCheapest instance.now certificate.now low cost) }
{
    heredity();
    normal_form();
    match low_or_failure(alloc, instance, certificate)? {
        Ok(low) => Ok(Answer::Stands {
            low,
            cost: certificate.cost,
        }),
        Err((place, reason)) => Ok(Answer::Rejected(place, reason)),
    }
}
