//! Marks of a certificate, and reasons against one.

use closing_rules::Ground;

/// What a certificate says of a node: it is split, closed on a ground, or left open, where the prices of
/// a number may show what a plan under it costs at the least.
#[derive(Clone, Copy, PartialEq, Eq)]
pub enum Mark {
    Split,
    Leaf(Ground),
    Open,
    OpenPriced(u64),
}

/// The place at which a certificate fails.
#[derive(Clone, Copy, PartialEq, Eq)]
pub enum FailurePlace {
    Plan,
    Cost,
    Cut(u64),
    Prices(u64),
    Tree(u64),
}

/// Why it fails there.
#[derive(Clone, Copy, PartialEq, Eq)]
pub enum Reason {
    PlanIllegal,
    CostWrong,
    CutShape,
    CutUnproved,
    TreeShort,
    TreeLong,
    SplitFull,
    BoundLow,
    CutMisses,
    ThroughputLow,
    ProbeWrong,
    PricesShape,
    PriceLow,
    SweptWrong,
}
