//! Laws of the kit's types that the kit does not state: no lock, and no code.
//!
//! - `proofs/Lists`: lists that grow at the end, parts of lists, their heads and tails.
//! - `proofs/ByRecursion`: what holds of each element of two lists joined.
//! - `proofs/Counts`: a test counted as a number, and how many pass a test.
//! - `specs/Among`, `proofs/Distinct`: what stands in a list, and lists of distinct numbers.
//! - `proofs/Variants`: an `Option` or a `Result` is one variant, with one value.
#![tactic(auto)]
