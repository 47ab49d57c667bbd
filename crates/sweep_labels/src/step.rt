//! Steps by which labels go on.

use crate::ship_set::ShipSet;
use lock_model::Way;

/// An uncut group that is served next from a minute on: its start and end, the flow time of its ships in
/// minutes, their prices, and what it is worth with the least behind it, in hundredths of a minute.
#[derive(Clone, Copy)]
pub struct Arc {
    pub ships: ShipSet,
    pub start: u32,
    pub end: u32,
    pub flow: u32,
    pub prices: u64,
    pub worth: i64,
}

/// An arc of a chamber and way.
#[derive(Clone, Copy)]
pub struct Step {
    pub chamber: u8,
    pub way: Way,
    pub arc: Arc,
}
