//! Slots that no mark closes.
ghost use Rattle.std.specs.Prelude.{◌≡◌, ◌<◌, length, IfSome, IfNone};
ghost use Rattle.book_rules.specs.Book.{slot_at, is_live};
ghost use Rattle.book_certificate.specs.Certified.{IsLive, HasNoLive};

use book_core::Book;
use book_rules::SlotState;

// Whether a slot in this state is open, held or parked.
fn is_live(state: SlotState) -> bool
    ensures { result ≡ is_live state }
{
    match state {
        SlotState::Fresh | SlotState::Back | SlotState::Held(_) | SlotState::Parked(_, _) => true,
        _ => false,
    }
}

// Whether a slot is open, held or parked.
fn is_live_at(book: &Book, id: u32) -> bool
    requires { id < length book.now.slots }
    ensures { result ≡ is_live (slot_at book.now id).state }
{
    match book.slot_state(id) {
        Some(state) => is_live(state),
        None => false,
    }
}

// The first slot that is open, held or parked.
pub(crate) fn first_live(book: &Book) -> Option<u32>
    ensures some { IfSome result (IsLive book.now) }
    ensures none { IfNone result (HasNoLive book.now) }
{
    for id in 0..book.slots() {
        if is_live_at(book, id) {
            return Some(id);
        }
    }
    None
}
