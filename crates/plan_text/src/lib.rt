//! Plan texts, which follow an instance: `read_plan` reads one, `print_plan` prints one, and `neat`
//! pushes the ships of a plan to the near ends of their chambers. And what is written where a plan is
//! refused.
//!
//! Reading takes no memory and answers for all bytes: the plan that they name, or their first fault
//! with its line and kind, exactly where they name none. A plan text need not be legal; the judges
//! of `mooring_rules` say whether it is.
//!
//! `fault_text` names the line and the fault of a plan text. `break_text` names the lockage of a plan,
//! what it breaks and the ships of the break, or the ship that lies in no lockage or in two.
//! `late_text` names a lockage that ends too late to be kept. In all of them lockages are numbered
//! from 1, and want of memory is the only refusal.
//!
//! Definitions: `specs/Words` (what a word means), `Berths` (the lockage that berth lines make),
//! `Draft` and `Lines` (one line after the other), `Reading` (the plan of a text and its first
//! fault), `Writable` (which plans have a text), `Printing` (the text that is printed), `Neat` (plans
//! that differ in x alone), `FaultTexts` (the faults of a plan text by number and name, and their
//! texts), `BreakTexts` (the texts of breaks). Lines and words are those of `line_text`.
#![tactic(auto)]

mod berth;
mod breaks;
mod draft;
mod faults;
mod kinds;
mod laws;
mod line;
mod lockages;
mod moorings;
mod named;
mod printing;
mod pushing;
mod reading;
mod words;

pub use breaks::{break_text, late_text};
pub use faults::fault_text;
pub use kinds::{BadPlan, PlanKind};
pub use laws::plans_with_texts;
pub use printing::print_plan;
pub use pushing::neat;
pub use reading::read_plan;
