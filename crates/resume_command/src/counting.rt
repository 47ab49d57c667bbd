//! The work that an open certificate holds.
ghost use Rattle.std.specs.Prelude.{◌≡◌, ◌≤◌, [], ◌∷◌};
ghost use Rattle.resume_command.specs.Prior.{prior_of};

use certificate_parts::{Certificate, Ground, Mark};

// 1 for a mark that is neither a bound mark nor an open leaf, and else 0.
fn weight(mark: &Mark) -> u64
    ensures value { result ≡ prior_of (mark.now ∷ []) }
    ensures most { result ≤ 1 }
{
    match mark {
        Mark::Open | Mark::OpenPriced(_) | Mark::Leaf(Ground::Bound) => 0,
        _ => 1,
    }
}

// How many of these marks are neither bound marks nor open leaves.
fn count(marks: &[Mark]) -> u64
    ensures { result ≡ prior_of marks.now }
{
    let mut count = 0;
    for mark in marks {
        count += weight(mark);
    }
    count
}

// How many marks of an open certificate are neither bound marks nor open leaves. The nodes that a
// search has taken and not left open have such marks, or bound marks.
pub(crate) fn prior(certificate: &Certificate) -> u64
    ensures { result ≡ prior_of certificate.now.tree }
{
    count(certificate.tree.as_slice())
}
