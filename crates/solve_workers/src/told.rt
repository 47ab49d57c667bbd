//! What a reply tells.
ghost use Rattle.std.specs.Prelude.{◌≡◌, true, Some, IfOk, OnOk, OnErr};
ghost use Rattle.solve_workers.specs.Told.{slot_in, number_in, is_closed, is_made, is_want, IsMadeOrWant, IsPostedOrWant};

use book_core::{Grant, Refusal, Reply};
use no_memory::NoMemory;

/// The slot that was given.
pub(crate) fn slot_in(grant: Grant) -> Option<u32>
    ensures { result ≡ slot_in grant }
{
    match grant {
        Grant::Slot(id) => Some(id),
        _ => None,
    }
}

/// Whether a slot was closed.
pub(crate) fn is_closed(reply: &Reply) -> bool
    ensures { result ≡ is_closed reply.now }
{
    match reply {
        Reply::Closed => true,
        _ => false,
    }
}

/// Whether there was no memory.
pub(crate) fn is_want(reply: &Reply) -> bool
    ensures { result ≡ is_want reply.now }
{
    match reply {
        Reply::Refused(Refusal::NoMemory) => true,
        _ => false,
    }
}

/// That a slot was split; else there was no memory.
pub(crate) fn made(reply: &Reply) -> Result<(), NoMemory>
    requires { IsMadeOrWant reply.now }
    ensures made { OnOk result (is_made reply.now ≡ true) }
    ensures want { OnErr result (is_want reply.now ≡ true) }
{
    match reply {
        Reply::Made(_) => Ok(()),
        Reply::Refused(Refusal::NoMemory) => Err(NoMemory),
        _ => unreachable!(),
    }
}

/// The number of the cut that was kept; else there was no memory.
pub(crate) fn posted(reply: &Reply) -> Result<u64, NoMemory>
    requires { IsPostedOrWant reply.now }
    ensures posted { IfOk result (λ number. number_in reply.now ≡ Some number) }
    ensures want { OnErr result (is_want reply.now ≡ true) }
{
    match reply {
        Reply::Posted(number) => Ok(*number),
        Reply::Refused(Refusal::NoMemory) => Err(NoMemory),
        _ => unreachable!(),
    }
}
