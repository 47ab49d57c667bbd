//! What lower bounds by prices are asked with, and what they answer.
//!
//! `Prices` are of the ships of an instance and of triples of them, a `ChamberCut` is what a bound needs
//! of a cut, `Limits` and `PriceError` say how much a bound may take and why it wasn't worked out, and `LooseLines` are least
//! lines. `Shown` carries that a node reaches a cost by prices and cuts, `Swept` that no uncut plan costs
//! less than a cost: their values exist only where that is so, which whoever makes one shows
//! (`price_bound` works the one out, `sweep` the other).
//!
//! Definitions: `price_rules` says what a node reaches, `sweep_rules` when a cost is swept; here
//! `specs/Cuts` says what cuts are by chamber and ships, and `Claim` what a `Shown` and a `Swept` carry.
#![tactic(auto)]

mod cut;
mod error;
mod loose_line;
mod prices;
mod shown;
mod swept;
mod triples;

pub use cut::{ChamberCut, same_cuts};
pub use error::{Limits, PriceError, append};
pub use loose_line::{LooseLine, LooseLines, copied};
pub use prices::Prices;
pub use shown::Shown;
pub use swept::Swept;
pub use triples::are_among;
