//! Texts that are made for a refusal.
ghost use Rattle.std.specs.Prelude.{◌≡◌, ◌<◌, ◌++◌, length, IfOk, OnOk};
ghost use Rattle.run_answers.specs.Texts.{number_of, name_of, defect_text, too_long_text, unfit_text};

use instance_text::{Bad, Kind};
use lock_model::Instance;
use no_memory::NoMemory;
use plain_text::{put, put_number};
use std::alloc::Global;

// The number of a kind of defect.
fn number_of(kind: Kind) -> u8
    ensures { result ≡ number_of kind }
{
    kind as u8
}

// The name of a kind of defect.
fn name_of(kind: Kind) -> &'static [u8]
    ensures { result.now ≡ name_of kind }
{
    match kind {
        Kind::NotUtf8 => b"NotUtf8",
        Kind::NoHeader => b"NoHeader",
        Kind::Word => b"Word",
        Kind::Count => b"Count",
        Kind::Number => b"Number",
        Kind::Range => b"Range",
        Kind::Name => b"Name",
        Kind::Twice => b"Twice",
        Kind::TurnOverPass => b"TurnOverPass",
        Kind::NoChamber => b"NoChamber",
        Kind::NoShip => b"NoShip",
        Kind::NoEnd => b"NoEnd",
        Kind::Unknown => b"Unknown",
        Kind::Overlap => b"Overlap",
    }
}

/// Appends the first defect of an instance text, with its line, its number and its name.
#[tactic(auto, unfolding(crate::specs::Texts::defect_text))]
pub fn put_defect(out: &mut Vec<u8>, bad: Bad) -> Result<(), NoMemory>
    ensures { OnOk result (out.new.items ≡ out.old.items ++ defect_text bad.line bad.kind) }
{
    put(out, b"line ")?;
    put_number(out, bad.line)?;
    put(out, b" fault ")?;
    put_number(out, number_of(bad.kind) as u64)?;
    put(out, b" ")?;
    put(out, name_of(bad.kind))?;
    put(out, b"\n")
}

/// The first defect of an instance text.
pub fn defect_text(alloc: Global, bad: Bad) -> Result<Vec<u8>, NoMemory>
    ensures { IfOk result (λ text. text.items ≡ defect_text bad.line bad.kind) }
{
    let mut out = Vec::new(alloc);
    put_defect(&mut out, bad)?;
    Ok(out)
}

/// That there are more bytes than the limit.
#[tactic(auto, unfolding(crate::specs::Texts::too_long_text))]
pub(crate) fn too_long_text(alloc: Global, limit: u64) -> Result<Vec<u8>, NoMemory>
    ensures { IfOk result (λ text. text.items ≡ too_long_text limit) }
{
    let mut out = Vec::new(alloc);
    put(&mut out, b"too long ")?;
    put_number(&mut out, limit)?;
    put(&mut out, b"\n")?;
    Ok(out)
}

/// That no chamber takes the ship.
#[tactic(auto, unfolding(crate::specs::Texts::unfit_text))]
pub fn unfit_text(alloc: Global, instance: &Instance, ship: u8) -> Result<Vec<u8>, NoMemory>
    requires { ship < length instance.now.ships }
    ensures { IfOk result (λ text. text.items ≡ unfit_text instance.now ship) }
{
    let mut out = Vec::new(alloc);
    put(&mut out, b"ship ")?;
    put(
        &mut out,
        instance.ships.as_slice()[ship as usize].name.as_slice(),
    )?;
    put(&mut out, b" fits no chamber\n")?;
    Ok(out)
}
