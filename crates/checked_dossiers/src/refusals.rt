//! What is answered where a dossier is refused.
ghost use Rattle.std.specs.Prelude.{◌<◌, length};
ghost use Rattle.run_answers.specs.Written.{bytes_in};
ghost use Rattle.checked_dossiers.specs.RefusalTexts.{fault_text, rejected_text};
ghost use Rattle.checked_dossiers.specs.Refused.{TellsBad, TellsUnfit};

use crate::refusal_texts::{fault_text, rejected_text};
use cert_check::{FailurePlace, Reason};
use cert_text::BadDossier;
use lock_model::Instance;
use no_memory::NoMemory;
use run_answers::{Answer, Status, Text, no_memory, unfit_text};
use std::alloc::Global;

/// The most bytes of a dossier that are read. Want of memory comes first.
pub const DOSSIER_LIMIT: u64 = 9_007_199_254_740_992;

/// The first fault of a dossier.
pub(crate) fn fault_answer(alloc: Global, fault: BadDossier) -> Answer
    ensures { TellsBad (fault_text fault) result.status (bytes_in result.text) }
{
    match fault_text(alloc, fault) {
        Ok(text) => Answer {
            status: Status::BadDossier,
            text: Text::Made(text),
        },
        Err(NoMemory) => no_memory(),
    }
}

/// A ship that fits no chamber.
pub(crate) fn unfit_answer(alloc: Global, instance: &Instance, ship: u8) -> Answer
    requires { ship < length instance.now.ships }
    ensures { TellsUnfit instance.now ship result.status (bytes_in result.text) }
{
    match unfit_text(alloc, instance, ship) {
        Ok(text) => Answer {
            status: Status::Unfit,
            text: Text::Made(text),
        },
        Err(NoMemory) => no_memory(),
    }
}

/// Where a certificate fails first, and why.
pub(crate) fn rejected_answer(alloc: Global, place: FailurePlace, reason: Reason) -> Answer
    ensures { TellsBad (rejected_text place reason) result.status (bytes_in result.text) }
{
    match rejected_text(alloc, place, reason) {
        Ok(text) => Answer {
            status: Status::BadDossier,
            text: Text::Made(text),
        },
        Err(NoMemory) => no_memory(),
    }
}
