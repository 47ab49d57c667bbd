//! Memory for what grows.
ghost use Rattle.std.specs.Prelude.{◌≡◌, ◌≤◌, ◌<◌, length, IfOk, vec_len, vec_capacity};
ghost use Rattle.book_core.specs.Keeps.{IsMoreRoom};

use crate::book::Book;
use book_rules::Entry;
use no_memory::NoMemory;

// Room for so many entries of the history.
pub(crate) fn widen(history: &mut Vec<Entry>, needed: usize) -> Result<(), NoMemory>
    requires { vec_len history.old ≤ needed }
    ensures history { history.new.items ≡ history.old.items }
    ensures wider { vec_capacity history.old ≤ vec_capacity history.new }
    ensures entries { IfOk result (λ _. needed ≤ vec_capacity history.new) }
{
    let more = needed - history.len();
    history.try_reserve(more)?;
    Ok(())
}

// Room for so many entries of the history, and for one more of a list.
pub(crate) fn make_room<T>(
    history: &mut Vec<Entry>,
    needed: usize,
    list: &mut Vec<T>,
) -> Result<(), NoMemory>
    requires { vec_len history.old ≤ needed }
    ensures history { history.new.items ≡ history.old.items }
    ensures list { list.new.items ≡ list.old.items }
    ensures wider { vec_capacity history.old ≤ vec_capacity history.new }
    ensures entries { IfOk result (λ _. needed ≤ vec_capacity history.new) }
    ensures one { IfOk result (λ _. vec_len list.new < vec_capacity list.new) }
{
    widen(history, needed)?;
    list.try_reserve(1)?;
    Ok(())
}

impl Book {
    // How many entries the history needs room for once a cut, prices, a plan or a cost that was shown
    // are kept.
    pub(crate) fn entries_needed(&self) -> Result<usize, NoMemory>
        ensures count { IfOk result (IsMoreRoom self.now) }
        ensures more { IfOk result (λ n. length self.now.history < n) }
    {
        let most = u32::MAX as usize;
        if self.cuts.len() >= most || self.plans.len() >= most || self.prices.len() >= most {
            return Err(NoMemory);
        }
        let kept = self.cuts.len() + self.plans.len() + self.prices.len();
        Ok(3 * self.nodes() as usize + 33 + kept + self.shown_lows as usize)
    }
}
