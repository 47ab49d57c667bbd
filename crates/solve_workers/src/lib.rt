//! The search of a case by workers in threads, and its end.
//!
//! `solve_from` opens a book with a legal plan and given cuts (`opening`). Where the budget is small, it lets
//! 1 to `WORKERS` workers search it (`searching`), and takes it back. Of the book that comes back only its
//! type is known, so the caller tests that it is the one it opened, and opens a fresh one where a test fails
//! (`settling`, `comparing`). Then it drives the search to its end on its own thread, so what the contract
//! says rests on no worker. `solve` does so from the plan of `first_plan` and no cuts.
//!
//! With a larger budget the caller searches the first nodes alone, as one worker does. An instance that isn't
//! solved by then is hard: its search begins again, with prices (`hardness`). Once the root is priced, several
//! workers search that book, and the caller drives on what they leave.
//!
//! - Workers: `crew` deals out what each owns and gathers it again, `running` starts them in threads,
//!   or runs one on the caller's where none can be made, and waits for all. `search_worker` is the
//!   work of one.
//! - `drive` works on a book as the driver, whose number is that behind the workers', until nothing is
//!   open or the budget of nodes is spent, and then closes the parked slots whose bound is at least the
//!   best cost: the book ends well. All that it does to the book is a list of events of the driver, also
//!   where memory runs out. For each node `held` takes it, `working` asks `node_work` what becomes of
//!   it, and `ending` makes it so. One that would be split is priced first, once there are prices
//!   (`pricing`): that is `price_or_sweep` of `root_pricing`, at the desk that the book in the driver's hand is
//!   (`offering`).
//! - At the end the caller shows of the slots that are left what the root reaches by its prices (`lows`).
//!
//! Definitions: `book_rules` says how a search ends well (`specs/Ends`) and what events change;
//! here `specs/Driving` (events of the driver), `Holding` and `Holds` (what it holds, and what it
//! has tidied), `Offering` (what it makes of a book while prices are asked), `Closable` (how a held
//! node may end), `Opening` (a book that was just opened), `Settling` (what the caller tests, and a
//! book that is freed), `Showing` (a book of which costs are shown), `Told` (what replies tell).
#![tactic(auto)]

mod comparing;
mod crew;
mod cut_list;
mod driver;
mod driving;
mod ending;
mod hardness;
mod held;
mod lows;
mod offering;
mod opening;
mod pricing;
mod running;
mod searching;
mod settling;
mod solving;
mod told;
mod working;

pub use cut_list::CutList;
pub use driving::drive;
pub use solving::{Solved, solve, solve_from};
