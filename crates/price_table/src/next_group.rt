//! Groups of a loose line of the least worth, one after another.

use crate::state::State;
use lock_model::Group;

/// A state with its value, in hundredths of a minute.
#[derive(Clone, Copy)]
pub(crate) struct ValuedState {
    pub(crate) state: State,
    pub(crate) value: i64,
}

/// A group that comes next in a line, and the state behind it.
#[derive(Drop)]
pub(crate) struct NextGroup {
    pub(crate) group: Group,
    pub(crate) behind: ValuedState,
}
