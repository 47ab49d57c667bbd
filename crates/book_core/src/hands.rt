//! Which slot each worker holds.
ghost use Rattle.std.specs.Prelude.{◌≡◌, ◌<◌, ◌≤◌, ◌≢◌, [], ℕ, IfSome, slice_set};
ghost use Rattle.book_rules.specs.declared.book.SlotState.TheVariants as slot;
ghost use Rattle.flow_bounds.specs.Roster.{IsRosterOf};
ghost use Rattle.book_core.specs.Hands.{IsBounding, filled, laid, held_at};
ghost use Rattle.book_core.specs.Changes.{let_go, leave_back};

use crate::back_list::BackList;
use crate::hand::{Hand, fill, lay};
use book_rules::SlotState;
use flow_bounds::{Bounds, Roster};
use lock_model::{Instance, WORKERS, WORKERS_AND_DRIVER};

// A slot in this state leaves the hand of the worker who holds it, if one does.
pub(crate) fn let_go(hands: &mut [Option<Hand>; WORKERS_AND_DRIVER], state: SlotState)
    requires { (w : ℕ) → state ≡ slot.Held w → w < WORKERS_AND_DRIVER }
    ensures { hands.new ≡ let_go state hands.old }
{
    match state {
        SlotState::Held(worker) => hands[worker as usize] = None,
        _ => {}
    }
}

// Computes the bounds of the children of the node in a worker's hand, unless they are there.
pub(crate) fn fill_hand(
    hands: &mut [Option<Hand>; WORKERS_AND_DRIVER],
    worker: u8,
    instance: &Instance,
    roster: &Roster,
)
    requires worker { worker ≤ WORKERS }
    requires roster { IsRosterOf instance.now roster.now }
    requires hand { IfSome (held_at hands.old worker) (IsBounding instance.now) }
    ensures { hands.new ≡ slice_set hands.old worker (filled instance.now (held_at hands.old worker)) }
{
    fill(&mut hands[worker as usize], instance, roster);
}

// Puts bounds into a worker's hand.
pub(crate) fn lay_bounds(hands: &mut [Option<Hand>; WORKERS_AND_DRIVER], worker: u8, bounds: Bounds)
    requires { worker ≤ WORKERS }
    ensures { hands.new ≡ slice_set hands.old worker (laid bounds (held_at hands.old worker)) }
{
    lay(&mut hands[worker as usize], bounds);
}

// The first slot of the list, which is in this state, leaves the list if it is Back.
pub(crate) fn leave_back(back: &mut BackList, state: SlotState)
    requires { state ≡ slot.Back → back.old ≢ [] }
    ensures { back.new ≡ leave_back state back.old }
{
    match state {
        SlotState::Back => back.drop_first(),
        _ => {}
    }
}
