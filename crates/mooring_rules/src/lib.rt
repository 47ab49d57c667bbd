//! The judges of placements and of plans.
//!
//! `judge_spots` names the first break of a placement of a deck, and answers None exactly where
//! the placement is legal. `judge_plan` does the like for a plan of an instance, and `judge_part`
//! for a part of one, which may lack ships. `first_clash` names the first two ships of a deck whose
//! cargo clashes, `first_unfit` the first ship of an instance that fits no chamber. `served_in` counts the
//! lockages of a ship, and `has_ships` says whether ships are all the instance's. None of them takes memory.
//!
//! Definitions: `lock_model` says which placements are legal (`specs/Placement`) and which ships
//! clash (`Cargo`), `lock_rules` which plans and parts are legal (`specs/Plan`) and which ship is the
//! first unfit one (`Unfit`). Here `specs/PlacementBreaks`, `CargoBreaks` and `PlanBreaks` say which
//! break is the first.
#![tactic(auto)]

mod berth;
mod breaks;
mod cargo;
mod lockages;
mod part;
mod placement;
mod plan;
mod service;
mod shape;
mod unfit;

pub use breaks::{Broken, BrokenPlan};
pub use cargo::first_clash;
pub use part::judge_part;
pub use placement::judge_spots;
pub use plan::judge_plan;
pub use service::served_in;
pub use shape::has_ships;
pub use unfit::first_unfit;
