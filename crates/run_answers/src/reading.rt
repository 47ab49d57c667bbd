//! Reading a source to its end.
ghost use Rattle.std.specs.Prelude.{IfErr, IfOk};
ghost use Rattle.run_answers.specs.Sources.{IsReadWhole, IsUnreadable, TellsTooLong, drained};
ghost use Rattle.run_answers.specs.Written.{bytes_in};

use crate::answer::{Answer, fixed, made, no_memory};
use crate::status::Status;
use crate::texts::too_long_text;
use lock_io::{ReadError, Source, read_all};
use no_memory::NoMemory;
use std::alloc::Global;

/// The most bytes of an instance and a plan together.
pub const PLAN_LIMIT: u64 = 131_072;

// That there are more bytes than the limit, or want of memory for saying so.
fn too_long(alloc: Global, most: u64) -> Answer
    ensures { TellsTooLong most result.status (bytes_in result.text) }
{
    match too_long_text(alloc, most) {
        Ok(text) => made(Status::Refused, text),
        Err(NoMemory) => no_memory(),
    }
}

/// All bytes of a source, at most `most`, read to its end; or what is answered where they can't be had:
/// the source counted a fault, there are more, or memory was wanting. Inlined, its room would be on the
/// stack of the whole run.
#[inline(never)]
pub fn read_source<S: Source>(alloc: Global, src: &mut S, most: u64) -> Result<Vec<u8>, Answer>
    ensures read { IfOk result (λ bytes. IsReadWhole most (drained S.left S.faults src.old src.new) bytes.items) }
    ensures refused { IfErr result (λ answer. IsUnreadable most (drained S.left S.faults src.old src.new) answer.status (bytes_in answer.text)) }
{
    match read_all(alloc, src, most) {
        Ok(bytes) => Ok(bytes),
        Err(ReadError::ReadFault) => Err(fixed(Status::ReadFault, b"read fault\n")),
        Err(ReadError::TooLong(_)) => Err(too_long(alloc, most)),
        Err(ReadError::NoMemory) => Err(no_memory()),
    }
}
