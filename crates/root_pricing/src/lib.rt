//! What prices find at the root, and how it is carried out.
//!
//! `price_or_sweep` prices a node as `price` of `price_search` does. Where prices don't reach the best cost at
//! the root, it sweeps costs from what they reach up to the best cost: that closes the root too, or an uncut
//! plan is found that costs less, whose groups are placed. Few labels are made first. If they don't close the
//! root, some triples of ships get prices, and another ascent begins from the best prices so far, up to
//! three times; then many labels are made. Of many ships beams seek cheaper plans before. Triples are raised at
//! the root alone: nodes below it keep them at the prices that they have there.
//!
//! One thread alone prices the root, before others search below it: its desk is a `RootDesk`.
//!
//! - `pricing`: what sweeps, beams and ascents may take. `goals`: costs that are swept. `sweeping`: the root, swept.
//!   `beaming`: cheaper plans, sought by beams. `placing`: groups that a sweep or a beam found, placed. `ending`:
//!   what comes after an ascent. `carrying`: the root's rounds. `desk`: where what is found is carried out.
//!
//! Definitions: `specs/Ending` says whether the root was closed.
#![tactic(auto)]

mod beaming;
mod carrying;
mod desk;
mod ending;
mod goals;
mod placing;
mod pricing;
mod sweeping;

pub use carrying::price_or_sweep;
pub use desk::RootDesk;
pub use placing::{UncutGroups, place_uncut};
pub use pricing::RootPricing;
