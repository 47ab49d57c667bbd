//! The labels that a sweep has made, and the cheapest plan that it came to.
ghost use Rattle.std.specs.Prelude.{ℕ, ◌≡◌, ◌≤◌, ◌<◌, false, [], length, IfOk, slice_set};
ghost use Rattle.sweep_labels.specs.Made.{IsKept};

use crate::label::KeptLabel;
use crate::labels::Labels;
use price_terms::PriceError;
use std::alloc::Global;

/// The labels; the cost in minutes that is to be swept; and the number of the label of all ships that has
/// this cost, if one was kept.
#[derive(Drop)]
pub struct Made {
    pub labels: Labels,
    pub goal: u64,
    pub found: Option<u32>,
}

impl Made {
    /// No labels, and a cost that is to be swept.
    pub fn new(alloc: Global, goal: u64) -> Result<Made, PriceError>
        ensures { IfOk result (λ made. (made.labels.items.items ≡ []) × (made.labels.are_open.items ≡ []) × (made.goal ≡ goal)) }
    {
        Ok(Made {
            labels: Labels::new(alloc)?,
            goal,
            found: None,
        })
    }

    // Closes a label of all ships; where it costs less than the goal, it is the goal from now on.
    fn find(&mut self, number: u32, flow: u64)
        ensures items { self.new.labels.items.items ≡ self.old.labels.items.items }
        ensures closed { self.new.labels.are_open.items ≡ slice_set self.old.labels.are_open.items number false }
        ensures low { self.new.goal ≤ self.old.goal }
        ensures costly { self.new.goal ≤ flow }
    {
        self.labels.close(number as usize);
        if flow < self.goal {
            self.found = Some(number);
            self.goal = flow;
        }
    }

    /// Keeps a label, of all ships or not; its number, where it is open. Refused are only want of memory and
    /// more labels than a number counts.
    #[tactic(auto, using(crate::proofs::MadeLemmas::kept_out, crate::proofs::MadeLemmas::kept_in, crate::proofs::MadeLemmas::kept_whole))]
    pub fn keep(&mut self, kept: KeptLabel, whole: bool) -> Result<Option<u32>, PriceError>
        requires { length self.old.labels.are_open.items ≡ length self.old.labels.items.items }
        ensures { IfOk result (λ _. IsKept kept self.old.labels.items.items self.old.labels.are_open.items self.old.goal self.new.labels.items.items self.new.labels.are_open.items self.new.goal) }
    {
        let flow = kept.label.flow as u64;
        let Some(number) = self.labels.put(kept)? else {
            return Ok(None);
        };
        if whole {
            self.find(number, flow);
            return Ok(None);
        }
        Ok(Some(number))
    }
}
