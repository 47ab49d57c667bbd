//! What certificates are made of, for those who write, print, read and check them.
//!
//! A `Certificate` is a cost, cuts with their refutations, a plan, prices, and one mark for each node of
//! a search tree, which may leave nodes open; its lists are `Numbered` from 0.
//!
//! Definitions: the contracts see a certificate as that of `certificate_rules` (`specs/Certificates`),
//! and a list as its parts in order.
#![tactic(auto)]

mod certificate;
mod numbered;

pub use certificate::{CertCut, CertCuts, Certificate, MarkList, PriceLists};
pub use certificate_rules::Mark;
pub use closing_rules::Ground;
pub use numbered::Numbered;
