//! What is left of an instance.

use crate::numbers::ShipNumbers;
use lock_model::{Instance, Plan};

/// What is left of an instance once a part of a plan is kept: the kept plan; the rest, None where
/// the kept plan serves all ships; for each ship of the rest its number in the instance; and the
/// minutes by which a plan of the rest costs less than the whole plan.
#[derive(Drop)]
pub struct Residual {
    pub kept: Plan,
    pub rest: Option<Instance>,
    pub numbers: ShipNumbers,
    pub added: u64,
}
