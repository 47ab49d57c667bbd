//! How the start of a lockage breaks the rules.

/// The first break of a chamber's line. Each carries the lockage's place in the plan, from 0.
#[derive(Clone, Copy, PartialEq, Eq)]
pub enum BrokenTime {
    /// A ship of the lockage arrives after its start.
    Early(u8),
    /// The lockage starts before the chamber is done with all before, or with no room for the
    /// empty turn that it needs.
    Soon(u8),
    /// A closure lies in the span of the lockage.
    Shut(u8),
}
