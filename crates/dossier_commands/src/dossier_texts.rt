//! Texts of the commands that read dossiers.
ghost use Rattle.std.specs.Prelude.{◌≡◌, IfOk};
ghost use Rattle.dossier_commands.specs.DossierTexts.{accepted_text, lower_text};

use no_memory::NoMemory;
use plain_text::{put, put_number};
use std::alloc::Global;

/// That a certificate of this cost is accepted.
#[tactic(auto, unfolding(crate::specs::DossierTexts::accepted_text))]
pub(crate) fn accepted_text(alloc: Global, cost: u64) -> Result<Vec<u8>, NoMemory>
    ensures { IfOk result (λ text. text.items ≡ accepted_text cost) }
{
    let mut out = Vec::new(alloc);
    put(&mut out, b"accepted cost ")?;
    put_number(&mut out, cost)?;
    put(&mut out, b"\n")?;
    Ok(out)
}

/// The low and the cost of an open certificate.
#[tactic(auto, unfolding(crate::specs::DossierTexts::lower_text))]
pub(crate) fn lower_text(alloc: Global, low: u64, cost: u64) -> Result<Vec<u8>, NoMemory>
    ensures { IfOk result (λ text. text.items ≡ lower_text low cost) }
{
    let mut out = Vec::new(alloc);
    put(&mut out, b"lower ")?;
    put_number(&mut out, low)?;
    put(&mut out, b" cost ")?;
    put_number(&mut out, cost)?;
    put(&mut out, b"\n")?;
    Ok(out)
}
