//! What may come next at a place of a line.
ghost use Rattle.std.specs.Prelude.{◌≡◌, cond, nat_lt};
ghost use Rattle.price_successors.specs.LateLists.{list_at};

use crate::late_list::LateList;
use crate::successor::Successor;

/// The successors that may come next at a place of a line, and fewer that serve as well from minutes on,
/// later and later ones.
#[derive(Drop)]
pub struct SuccessorList {
    pub successors: Vec<Successor>,
    pub late_lists: Vec<LateList>,
}

// The successors of a late list, where it has begun at the minute.
fn begun<'a>(successors: &'a [Successor], late_list: &'a LateList, minute: u64) -> &'a [Successor]
    ensures { result.now ≡ cond (nat_lt minute late_list.now.from) successors.now late_list.now.successors.items }
{
    if minute < late_list.from {
        successors
    } else {
        &late_list.successors
    }
}

impl SuccessorList {
    /// The successors that are looked at in a state of this minute.
    pub fn list(&self, minute: u64) -> &[Successor]
        ensures { result.now ≡ list_at self.now.successors.items self.now.late_lists.items minute }
    {
        let mut successors = self.successors.as_slice();
        for late_list in &self.late_lists {
            successors = begun(successors, late_list, minute);
        }
        successors
    }
}
