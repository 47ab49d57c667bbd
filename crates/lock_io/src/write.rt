//! Writing a whole text.
ghost use Rattle.std.specs.Prelude.{◌≤◌, OnOk, OnErr};
ghost use Rattle.std.specs.Io.KnownBytes.{Appends};
ghost use Rattle.lock_io.specs.Faults.{Rose};
ghost use Rattle.lock_io.specs.WholeWrites.{AppendsProperPrefix};

use crate::sink::{Put, Sink};

/// The sink failed before it had all bytes.
#[derive(Clone, Copy, PartialEq, Eq)]
pub struct WriteFault;

/// Appends all bytes to the sink, or a proper prefix of them and a counted fault. It takes no memory.
pub fn write_all_of<K: Sink>(out: &mut K, bytes: &[u8]) -> Result<(), WriteFault>
    ensures all { OnOk result (Appends (K.held out.old) (K.held out.new) bytes.now) }
    ensures fault { OnErr result (Rose (K.faults out.old) (K.faults out.new)) }
    ensures prefix { OnErr result (AppendsProperPrefix (K.held out.old) (K.held out.new) bytes.now) }
    ensures later { K.faults out.old ≤ K.faults out.new }
{
    let mut done = 0;
    while done < bytes.len() {
        match out.put(&bytes[done..]) {
            Put::Took(count) => done += count,
            Put::Failed => return Err(WriteFault),
        }
    }
    Ok(())
}
