//! What the checker answers to a certificate.
use certificate_rules::{FailurePlace, Reason};

/// What the checker says of a certificate.
#[derive(Clone, Copy, PartialEq, Eq)]
pub enum Answer {
    /// It stands: its plan costs `cost` minutes, and every legal plan at least `low`, which is at most
    /// `cost`. Of an open leaf as much is shown as its bound, or the greatest cost that it reaches by the
    /// prices that its mark names and all cuts, whichever is more; `low` is the least of these and of
    /// `cost`. The two are equal where it leaves no node open.
    Stands { low: u64, cost: u64 },
    /// It doesn't, since it fails first at this place and for this reason.
    Rejected(FailurePlace, Reason),
}
