//! The checker of certificates, whole and open: how much less any plan may cost, told without any
//! search of nodes.
//!
//! `check` answers `Stands` exactly where the certificate stands, with its low and its cost: its plan is
//! legal and has this cost, and no legal plan costs less than the low, which is the greatest number up
//! to the cost that all open leaves show, by their bounds or by prices. So where no node is left open,
//! the plan is cheapest. Else it answers `Rejected` with the first place and reason at which the
//! certificate fails, and only want of memory keeps it from an answer. `one_first_failure` is the law
//! that a certificate that doesn't stand fails first at one place for one reason. The marks are read
//! once along their tree. No placer and no search of nodes stands below; what a node reaches by prices
//! and whether a cost is swept it asks the same crates as a search does, `price_bound` and `sweep`.
//!
//! Definitions: `certificate_rules` says which certificates stand and which of them are accepted
//! (`specs/Certificates`), what the low is (`Low`) and where one fails first (`Failures`). Here `Proven`
//! says what a certificate proves, and `FirstFailure` what the law is. Of private functions `Cuts` says
//! what is wrong with a cut, `Hitting` what a cut hits line by line, `Swept` what a mark says that tells
//! of a sweep, `Splitting` what is told of a node that is split, and `Reading` what is read of a node and
//! of its children, and what an open leaf leaves of a low.
#![tactic(auto)]

mod answers;
mod checking;
mod claim;
mod closing;
mod cuts;
mod hitting;
mod laws;
mod lowering;
mod prices;
mod reading;
mod room;
mod splitting;
mod swept;
mod workspace;

pub use answers::Answer;
pub use certificate_rules::{FailurePlace, Reason};
pub use checking::check;
pub use laws::one_first_failure;
