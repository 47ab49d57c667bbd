//! Where bytes come from, and where they go.
//!
//! A source hands out bytes and a sink takes them, in pieces of any size, and each counts its faults.
//! `read_all` answers all bytes that were left, or why it can't, and `write_all_of` appends all bytes,
//! or a proper prefix of them with a counted fault.
//! The contracts of the two are the crate's, over every source and sink that keeps its trait's clauses.
//! `StdSource` and `StdSink` adapt std's reader and writer.
//!
//! Definitions: `specs/Faults` (counts of faults), `Sources` and `Sinks` (what a call hands out or takes
//! in), `WholeReads` and `WholeWrites`; of the adapters `Standard`.
#![tactic(auto)]

mod read;
mod sink;
mod source;
mod standard;
mod write;

pub use read::{ReadError, read_all};
pub use sink::{Put, Sink};
pub use source::{Source, Taken};
pub use standard::{StdSink, StdSource};
pub use write::{WriteFault, write_all_of};
