//! How far a step goes.
ghost use Rattle.std.specs.Prelude.{◌≤◌, ◌<ℤ◌, pos};

/// A whole stride. Strides are reckoned in fractions of 65,536.
pub(crate) const WHOLE_STRIDE: i64 = 65_536;
// Prices are reckoned in fractions of 256, directions in fractions of 1,024.
const FINE: i64 = 256;

const ONCE: i64 = 1_024;
// The least and the greatest gap to the goal that steps are reckoned with, in hundredths of a minute.
const LEAST_GAP: i64 = 50;

const MOST_GAP: i64 = 10_000_000;
// The greatest price, in fractions.
const MOST: i64 = 1_000_000 * FINE;

/// A price in fractions.
pub(crate) fn exact(price: u32) -> i64 {
    price as i64 * FINE
}

/// The whole price below one in fractions, from 0 to 1,000,000.
pub(crate) fn whole(exact: i64) -> u32
    ensures { result ≤ 1000000 }
{
    (exact.clamp(0, MOST) / FINE) as u32
}

/// How far the sum of the least lines and the prices is below the goal.
pub(crate) fn gap_to(goal: u64, sum: i64) -> i64 {
    let goal = goal.min(MOST_GAP as u64) as i64 * 100;
    goal.saturating_sub(sum).clamp(LEAST_GAP, MOST_GAP)
}

/// A direction, turned: of what it was so many tenths are kept, and it is pulled so often.
pub(crate) fn turned(direction: i64, kept: u32, pull: i64) -> i64 {
    let before = direction.saturating_mul(kept as i64) / 10;
    before.saturating_add(pull.saturating_mul(ONCE))
}

/// The squares of directions, added to others.
pub(crate) fn with_square(norm: i64, direction: i64) -> i64 {
    norm.saturating_add(direction.saturating_mul(direction))
}

/// A step: how far it goes along directions of this norm.
#[derive(Clone, Copy)]
pub(crate) struct Step {
    pub(crate) reach: i64,
    pub(crate) norm: i64,
}

impl Step {
    /// Where an exact price is after the step.
    pub(crate) fn from(self, exact: i64, direction: i64) -> i64
        requires { pos 0 <ℤ self.norm }
    {
        let way = self.reach.saturating_mul(direction) / self.norm;
        exact.saturating_add(way).clamp(0, MOST)
    }
}
