//! What is wrong with a dossier.
ghost use Rattle.std.specs.Prelude.{◌≡◌};

use instance_text::Bad;
use no_memory::NoMemory;
use std::alloc::AllocError;

/// The first fault of a dossier, numbered from 1 in this order.
#[derive(Clone, Copy)]
pub enum BadDossier {
    /// The instance part has this first defect.
    Instance(Bad),
    /// The first line with words after the instance is no heading of a dossier.
    NoMark,
    /// What follows the heading is not one JSON text.
    Json,
    /// A part of the JSON value has not its form: 1 the object and its keys, 2 the cost, 3 the
    /// cuts, 4 the plan, 5 the tree, 6 the prices.
    Shape(u8),
}

/// Why a dossier, or a part of one, was not read.
#[derive(Clone, Copy)]
pub enum DossierError {
    /// It has this first fault.
    Fault(BadDossier),
    /// There was no memory for it.
    NoMemory,
}

impl From<BadDossier> for DossierError {
    ghost use Rattle.cert_text.specs.declared.bad.DossierError.TheVariants.{Fault};

    ghost from_gives = { λ bad error. error ≡ Fault bad };

    fn from(bad: BadDossier) -> DossierError {
        DossierError::Fault(bad)
    }
}

impl From<AllocError> for DossierError {
    ghost use Rattle.cert_text.specs.declared.bad.DossierError.TheVariants.{NoMemory as Want};

    ghost from_gives = { λ _ error. error ≡ Want };

    fn from(_error: AllocError) -> DossierError {
        DossierError::NoMemory
    }
}

impl From<NoMemory> for DossierError {
    ghost use Rattle.cert_text.specs.declared.bad.DossierError.TheVariants.{NoMemory as Want};

    ghost from_gives = { λ _ error. error ≡ Want };

    fn from(_error: NoMemory) -> DossierError {
        DossierError::NoMemory
    }
}
