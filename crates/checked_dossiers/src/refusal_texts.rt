//! What is written where a dossier is refused.
ghost use Rattle.std.specs.Prelude.{◌≡◌, ◌++◌, IfOk, OnOk, codes, decimal};
ghost use Rattle.checked_dossiers.specs.RefusalTexts.{place_text, number_of_reason, name_of_reason, rejected_text, shape_text, fault_text};
ghost use Rattle.cert_text.specs.declared.bad.BadDossier.TheVariants.{Instance as InstancePart};

use cert_check::{FailurePlace, Reason};
use cert_text::BadDossier;
use instance_text::Bad;
use no_memory::NoMemory;
use plain_text::{put, put_number};
use run_answers::put_defect;
use std::alloc::Global;

// Appends a place of a certificate.
fn put_place(out: &mut Vec<u8>, place: FailurePlace) -> Result<(), NoMemory>
    ensures { OnOk result (out.new.items ≡ out.old.items ++ place_text place) }
{
    match place {
        FailurePlace::Plan => put(out, b"plan"),
        FailurePlace::Cost => put(out, b"cost"),
        FailurePlace::Cut(number) => {
            put(out, b"cut ")?;
            put_number(out, number)
        }
        FailurePlace::Prices(number) => {
            put(out, b"prices ")?;
            put_number(out, number)
        }
        FailurePlace::Tree(number) => {
            put(out, b"tree ")?;
            put_number(out, number)
        }
    }
}

// The number of a reason.
fn number_of(reason: Reason) -> u64
    ensures { result ≡ number_of_reason reason }
{
    match reason {
        Reason::PlanIllegal => 1,
        Reason::CostWrong => 2,
        Reason::CutShape => 3,
        Reason::CutUnproved => 4,
        Reason::TreeShort => 5,
        Reason::TreeLong => 6,
        Reason::SplitFull => 7,
        Reason::BoundLow => 8,
        Reason::CutMisses => 9,
        Reason::ThroughputLow => 10,
        Reason::ProbeWrong => 11,
        Reason::PricesShape => 12,
        Reason::PriceLow => 13,
        Reason::SweptWrong => 14,
    }
}

// The name of a reason.
fn name_of(reason: Reason) -> &'static [u8]
    ensures { result.now ≡ name_of_reason reason }
{
    match reason {
        Reason::PlanIllegal => b"PlanIllegal",
        Reason::CostWrong => b"CostWrong",
        Reason::CutShape => b"CutShape",
        Reason::CutUnproved => b"CutUnproved",
        Reason::TreeShort => b"TreeShort",
        Reason::TreeLong => b"TreeLong",
        Reason::SplitFull => b"SplitFull",
        Reason::BoundLow => b"BoundLow",
        Reason::CutMisses => b"CutMisses",
        Reason::ThroughputLow => b"ThroughputLow",
        Reason::ProbeWrong => b"ProbeWrong",
        Reason::PricesShape => b"PricesShape",
        Reason::PriceLow => b"PriceLow",
        Reason::SweptWrong => b"SweptWrong",
    }
}

// Appends the number and the name of a reason.
fn put_reason(out: &mut Vec<u8>, reason: Reason) -> Result<(), NoMemory>
    ensures { OnOk result (out.new.items ≡ out.old.items ++ (decimal (number_of_reason reason) ++ (codes " " ++ name_of_reason reason))) }
{
    put_number(out, number_of(reason))?;
    put(out, b" ")?;
    put(out, name_of(reason))
}

/// That a certificate fails first at this place and for this reason.
#[tactic(auto, unfolding(crate::specs::RefusalTexts::rejected_text))]
pub(crate) fn rejected_text(
    alloc: Global,
    place: FailurePlace,
    reason: Reason,
) -> Result<Vec<u8>, NoMemory>
    ensures { IfOk result (λ text. text.items ≡ rejected_text place reason) }
{
    let mut out = Vec::new(alloc);
    put(&mut out, b"rejected ")?;
    put_place(&mut out, place)?;
    put(&mut out, b" reason ")?;
    put_reason(&mut out, reason)?;
    put(&mut out, b"\n")?;
    Ok(out)
}

// A text that is always the same.
fn same_text(alloc: Global, text: &[u8]) -> Result<Vec<u8>, NoMemory>
    ensures { IfOk result (λ made. made.items ≡ text.now) }
{
    let mut out = Vec::new(alloc);
    put(&mut out, text)?;
    Ok(out)
}

// That the instance part of a dossier has this first defect.
fn instance_text(alloc: Global, bad: Bad) -> Result<Vec<u8>, NoMemory>
    ensures { IfOk result (λ text. text.items ≡ fault_text (InstancePart bad)) }
{
    let mut out = Vec::new(alloc);
    put(&mut out, b"dossier fault 1 Instance ")?;
    put_defect(&mut out, bad)?;
    Ok(out)
}

// That a part of the JSON value of a dossier has not its form.
#[tactic(auto, unfolding(crate::specs::RefusalTexts::shape_text))]
fn shape_text(alloc: Global, part: u64) -> Result<Vec<u8>, NoMemory>
    ensures { IfOk result (λ text. text.items ≡ shape_text part) }
{
    let mut out = Vec::new(alloc);
    put(&mut out, b"dossier fault 4 Shape part ")?;
    put_number(&mut out, part)?;
    put(&mut out, b"\n")?;
    Ok(out)
}

/// The first fault of a dossier.
pub(crate) fn fault_text(alloc: Global, fault: BadDossier) -> Result<Vec<u8>, NoMemory>
    ensures { IfOk result (λ text. text.items ≡ fault_text fault) }
{
    match fault {
        BadDossier::Instance(bad) => instance_text(alloc, bad),
        BadDossier::NoMark => same_text(alloc, b"dossier fault 2 NoMark\n"),
        BadDossier::Json => same_text(alloc, b"dossier fault 3 Json\n"),
        BadDossier::Shape(part) => shape_text(alloc, u64::from(part)),
    }
}
