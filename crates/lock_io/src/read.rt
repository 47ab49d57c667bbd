//! Reading to the end.
ghost use Rattle.std.specs.Prelude.{◌≡◌, ◌≤◌, ◌<◌, ℕ, [], length, Some, IfOk, OnOk, IfErr, IfSome, IsSomeAnd, IsOkUnless};
ghost use Rattle.std.specs.Result.{IsErrOf};
ghost use Rattle.lock_io.specs.Faults.{Rose};
ghost use Rattle.lock_io.specs.WholeReads.{LosesFront};

use crate::source::{Source, Taken};
use std::alloc::{AllocError, Global};

// How many bytes one call of a source is asked for.
const ROOM: usize = 4096;

/// Why a source wasn't read to its end.
#[derive(Clone, Copy, PartialEq, Eq)]
pub enum ReadError {
    /// The source failed.
    ReadFault,
    /// The source handed out more bytes than this limit.
    TooLong(u64),
    /// There was no memory for the bytes.
    NoMemory,
}

impl From<AllocError> for ReadError {
    ghost use Rattle.lock_io.specs.declared.read.ReadError.TheVariants.{NoMemory};

    ghost from_gives = { λ _ error. error ≡ NoMemory };

    fn from(_error: AllocError) -> ReadError {
        ReadError::NoMemory
    }
}

/// All bytes that the source had left, which are at most `limit`.
///
/// Of a fault and too many bytes, the one that the reading meets first is answered.
/// After each refusal the bytes that were handed out are gone from the source.
pub fn read_all<S: Source>(alloc: Global, src: &mut S, limit: u64) -> Result<Vec<u8>, ReadError>
    // All bytes that were left, and none is left after them.
    ensures all { IfOk result (λ bytes. IfSome (S.left src.old) (λ left. bytes.items ≡ left)) }
    ensures end { OnOk result (IfSome (S.left src.old) (λ _. S.left src.new ≡ Some [])) }
    ensures within { IfOk result (λ bytes. length bytes.items ≤ limit) }

    // Each refusal with its cause, and what it took.
    ensures fault { IsErrOf result ReadError.ReadFault → Rose (S.faults src.old) (S.faults src.new) }
    ensures too_long { (most : ℕ) → IsErrOf result (ReadError.TooLong most)
        → (most ≡ limit) × IfSome (S.left src.old) (λ left. limit < length left) }
    ensures front { IfErr result (λ error. LosesFront error limit (S.left src.old) (S.left src.new)) }

    // With no fault, and no more bytes than the limit, only memory can be wanting.
    ensures served { ¬ Rose (S.faults src.old) (S.faults src.new)
        → IsSomeAnd (S.left src.old) (λ left. length left ≤ limit)
        → IsOkUnless result ReadError.NoMemory }
    ensures later { S.faults src.old ≤ S.faults src.new }
{
    let mut bytes = Vec::new(alloc);
    let mut room = [0u8; ROOM];
    loop {
        match src.take(&mut room) {
            Taken::Given(count) => {
                if count as u64 > limit - bytes.len() as u64 {
                    return Err(ReadError::TooLong(limit));
                }
                bytes.extend_from_slice(&room[..count])?;
            }
            Taken::End => return Ok(bytes),
            Taken::Failed => return Err(ReadError::ReadFault),
        }
    }
}
