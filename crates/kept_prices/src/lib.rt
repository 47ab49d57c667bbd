//! Lists of prices as a book and a certificate keep them.
//!
//! `Prices` of `price_terms` have room for `SHIPS` ships and `TRIPLES` triples in themselves; a book keeps
//! thousands of lists, of which few have a triple, and a certificate as many as a stranger wrote. A
//! `KeptPrices` has the same view and keeps the same, and takes memory for what it has alone.
//!
//! It has no definitions of its own: `specs/ListedPrices` of `closing_rules` says what lists of prices
//! keep, and when two are the same.
#![tactic(auto)]

mod kept;

pub use kept::KeptPrices;
