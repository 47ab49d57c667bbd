//! Certificates of a search, whole and open: plain types, definitions and laws.
//!
//! - `specs/Certificates`: which certificates stand, and which are accepted: those that stand and leave
//!   no node open. `Failures`: the first place and reason at which one fails.
//! - `specs/Low`: what a certificate proves that stands.
//! - `specs/WellFormed`: those that can be written as a text, and how their marks are numbered.
//!
//! A certificate may have prices. Marks may close a node by the prices of a number, or the root by a
//! sweep, or leave a node open by the prices of a number. An open leaf names no cost: it shows what its
//! bound and its prices show, and the low is the greatest number up to the cost that all open leaves show.
//!
//! The laws stand in `proofs/`: a certificate that stands proves its low (`LowLemmas`), acceptance means
//! cheapest (`AcceptLemmas`), no certificate that stands fails (`FailLemmas`). They take the laws of the
//! tree, `TreeLaws` of `closing_rules`. `CertRows` holds worked rows, `SweptRows` those of a root that
//! is closed by a sweep, `LowRows` those of open leaves; of lemmas for others, `TreeLemmas` tells of
//! trees of marks and `LeastLemmas` of numbers with a low one among them.
#![tactic(auto)]

mod certificate;
mod numbering;

pub use certificate::{FailurePlace, Mark, Reason};
pub use numbering::Numbering;
