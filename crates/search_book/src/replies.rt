//! What a reply says.
ghost use Rattle.std.specs.Prelude.{◌≡◌};
ghost use Rattle.std.specs.Bool.{OnTrue};
ghost use Rattle.search_book.specs.Replies.{is_accepting, is_idle, accepted};

use book_core::{Refusal, Reply};

/// Whether a reply accepts its event.
pub(crate) fn is_accepting(reply: &Reply) -> bool
    ensures { result ≡ is_accepting reply.now }
{
    match reply {
        Reply::Refused(_) => false,
        _ => true,
    }
}

/// Whether a reply says that nothing is open and a slot is held.
pub(crate) fn is_idle(reply: &Reply) -> bool
    ensures value { result ≡ is_idle reply.now }
    ensures refused { OnTrue result (accepted reply.now ≡ 0) }
{
    match reply {
        Reply::Refused(Refusal::Idle) => true,
        _ => false,
    }
}
