//! What workers call as they go.
//!
//! Each worker of a search, and its driver, tells its `Gate` where it is (`Point`). `OpenGate` lets all
//! pass at once, as does that of the program, which tells how far the search is. `MeetGate`, `LastGate` and `CutGate` hold one worker for a time, at a node that it took or
//! is about to price (`Stage`), so that tests can have workers meet, one be the last, or one learn the cuts
//! of another; each ends after its limit of looks. No claim rests on a gate, and none has a contract or
//! definitions.
#![tactic(auto)]

mod cut_gate;
mod gate;
mod hold;
mod last_gate;
mod meet_gate;
mod worker_set;

pub use cut_gate::CutGate;
pub use gate::{Gate, OpenGate, Point, Stage};
pub use last_gate::LastGate;
pub use meet_gate::MeetGate;
