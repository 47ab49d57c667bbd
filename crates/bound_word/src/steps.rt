//! The rule of the word, and the atomic steps that keep it.
use crate::view::{Opening, View};
use atomic_table::{Join, Play, Split, TableRule};

/// What holds of the word and of all views between any two steps.
pub struct BoundRule;

impl TableRule<u8, View, Opening> for BoundRule {
    ghost use Rattle.bound_word.specs.Rule.{KeepsViews};
    ghost use Rattle.bound_word.specs.Views.{first_view};

    ghost holds = { λ opening state. KeepsViews opening state };

    ghost first = { first_view };
}

/// A load.
pub struct LoadStep;

impl Play<u8, View> for LoadStep {
    ghost use Rattle.bound_word.specs.Steps.{Loads};

    ghost then = { Loads };
}

/// A load that tells no more than that the seat has no more than all parts.
pub struct CountStep;

impl Play<u8, View> for CountStep {
    ghost use Rattle.bound_word.specs.Steps.{Counts};

    ghost then = { Counts };
}

/// A `fetch_min`.
pub struct LowerStep;

impl Play<u8, View> for LowerStep {
    ghost use Rattle.bound_word.specs.Steps.{Lowers};

    ghost then = { Lowers };
}

/// One part goes to a new seat.
pub struct SplitStep;

impl Split<View> for SplitStep {
    ghost use Rattle.bound_word.specs.Views.{after_split, split_off};

    ghost left = { after_split };

    ghost right = { split_off };
}

/// Two seats become one.
pub struct JoinStep;

impl Join<View> for JoinStep {
    ghost use Rattle.bound_word.specs.Views.{joined, spent_view};

    ghost both = { joined };

    ghost spent = { spent_view };
}
