//! Why a node is closed.

/// Why a node is closed, in a book and in a certificate.
#[derive(Clone, Copy, PartialEq, Eq)]
pub enum Ground {
    /// Its bound is at least the cost.
    Bound,
    /// The throughput of the instance is at least the cost.
    Throughput,
    /// It lacks this ship, and the probe of the two is at least the cost.
    Probe(u8),
    /// The cut of this number hits one of its groups.
    Cut(u64),
    /// It reaches the cost by the prices of this number and all cuts.
    Price(u64),
    /// It is the root, there are prices of this number, by which the sweep went, and all cuts leave no
    /// uncut plan below the cost.
    Swept(u64),
}
