//! Laws of decks: what is left of a placement without one ship, in a longer or wider chamber, and
//! pushed to the near end; and the places along the chamber where a pushed ship may lie.
//!
//! - `thin_out` leaves a ship out, `widen` moves to a longer or wider chamber, `normalise` pushes
//!   every ship to the near end until it is anchored. Each takes a legal placement and gives a
//!   legal one; none takes memory.
//! - `spot_values` lists every x that a ship of a normal placement can have.
//! - `heredity` and `normal_form` are the two laws: a deck that fits still fits without any one of
//!   its ships and in more room, and every legal placement has a normal one beside it.
//!
//! Definitions: `lock_model` says what is legal, anchored and normal (`specs/Placement`,
//! `Normal`), `lock_rules` what heredity is (`Heredity`), `refute_rules` what the spot values are
//! (`Values`). Here `specs/Thin` and `Widen` say where the ships come to lie, `Shift`, `Slack` and
//! `Rounds` how they are pushed, `Reach` how the values are found, `Laws` what a normal form is.
#![tactic(auto)]

mod laws;
mod normal;
mod reach;
mod spot_list;
mod thinning;
mod values;
mod widening;

pub use laws::{heredity, normal_form};
pub use normal::normalise;
pub use spot_list::SpotList;
pub use thinning::thin_out;
pub use values::spot_values;
pub use widening::widen;
