//! Replanning: what is left of an instance once a part of a plan is kept.
//!
//! `residual` keeps the lockages of a plan that start before a minute, judges them, and makes the
//! instance of the rest: the chambers as the kept lockages leave them and the ships that these
//! don't serve. `put_together` appends a plan of the rest to the kept lockages. Neither takes memory.
//! `plans_that_keep` and `cheapest_that_keeps` are the laws that let the rest stand for all plans
//! that keep the kept part.
//!
//! `rest_as_lived` goes beside `residual` for a day as it is lived: it keeps the begun lockages and the
//! empty turns that have begun for the next ones, and no chamber of its rest opens before the minute.
//! `put_together_as_lived` puts a plan of that rest together. `legal_plans_go_on`, `rests_go_on`,
//! `plans_that_can_go_on` and `cheapest_that_can_go_on` are its laws: what has begun is what `play`
//! tells, and its plans are the legal ones that can still be carried out.
//!
//! Definitions: `specs/Kept` (the kept lockages, and when they can be kept), `PartBreaks` (why they
//! can't), `Rest` (the rest, and by how much it costs less than the whole), `Together` (a plan of the
//! rest put together with the kept plan, and plans that keep it), `Begun` (what has begun at a
//! minute), `Lived` (the rest as lived, and why there is none), `GoingOn` (plans that can still be
//! carried out, and the laws); of private functions alone `Last` (a chamber's last lockage).
#![tactic(auto)]

mod keeping;
mod late;
mod laws;
mod left;
mod lived;
mod naming;
mod numbers;
mod refusal;
mod remainder;
mod remaining;
mod standing;
mod together;
mod turning;

pub use laws::{
    cheapest_that_can_go_on, cheapest_that_keeps, plans_that_can_go_on, plans_that_keep,
    rests_go_on,
};
pub use lived::rest_as_lived;
pub use numbers::ShipNumbers;
pub use refusal::ReplanError;
pub use remainder::Residual;
pub use remaining::residual;
pub use together::{put_together, put_together_as_lived, ships_of};
