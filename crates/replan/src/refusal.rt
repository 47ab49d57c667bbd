//! Why a part of a plan can't be kept.

use mooring_rules::BrokenPlan;

/// Why the lockages that start before the minute can't be kept. Lockages are told by their places
/// in the given plan, from 0.
#[derive(Clone, Copy)]
pub enum ReplanError {
    /// The kept lockages have this first break, in the order of a plan's breaks; that ships are
    /// missing is no break of a part.
    Kept(BrokenPlan),
    /// The lockage is the first kept one that ends after minute 1,000,000, the last at which a
    /// chamber may open; or, of a rest as lived, the one for which the first begun turn that does has
    /// begun.
    Late(u8),
}
