//! The first fault of a plan text.
ghost use Rattle.std.specs.Prelude.{◌≡◌, ◌++◌, IfOk, OnOk};
ghost use Rattle.plan_text.specs.FaultTexts.{number_of, name_of, fault_text};

use crate::kinds::{BadPlan, PlanKind};
use no_memory::NoMemory;
use plain_text::put;
use plan_print::{put_named, put_word};
use std::alloc::Global;

// The number of a kind of fault.
fn number_of(kind: PlanKind) -> u8
    ensures { result ≡ number_of kind }
{
    kind as u8
}

// The name of a kind of fault.
fn name_of(kind: PlanKind) -> &'static [u8]
    ensures { result.now ≡ name_of kind }
{
    match kind {
        PlanKind::NotUtf8 => b"NotUtf8",
        PlanKind::NoMark => b"NoMark",
        PlanKind::Word => b"Word",
        PlanKind::Count => b"Count",
        PlanKind::Number => b"Number",
        PlanKind::Range => b"Range",
        PlanKind::Unknown => b"Unknown",
        PlanKind::Twice => b"Twice",
        PlanKind::Loose => b"Loose",
        PlanKind::Host => b"Host",
        PlanKind::NoEnd => b"NoEnd",
    }
}

// Appends a fault.
#[tactic(auto, unfolding(crate::specs::FaultTexts::fault_text))]
fn put_fault(out: &mut Vec<u8>, bad: BadPlan) -> Result<(), NoMemory>
    ensures { OnOk result (out.new.items ≡ out.old.items ++ fault_text bad.line bad.kind) }
{
    put_named(out, b"plan line ", bad.line)?;
    put_named(out, b" fault ", number_of(bad.kind) as u64)?;
    put_word(out, name_of(bad.kind))?;
    put(out, b"\n")
}

/// The first fault of a plan text: its line, counted from 1 after the instance's line `end`, its
/// number and its name. The only refusal is want of memory.
pub fn fault_text(alloc: Global, bad: BadPlan) -> Result<Vec<u8>, NoMemory>
    ensures { IfOk result (λ text. text.items ≡ fault_text bad.line bad.kind) }
{
    let mut out = Vec::new(alloc);
    put_fault(&mut out, bad)?;
    Ok(out)
}
