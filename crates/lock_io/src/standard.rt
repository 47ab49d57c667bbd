//! Std's readers and writers as a source and a sink.
ghost use Rattle.std.specs.Prelude.{◌≡◌, ◌<◌, ◌≤◌, length, None};
ghost use Rattle.lock_io.specs.Faults.{Rose};
ghost use Rattle.lock_io.specs.Standard.{Adapted};

use crate::sink::{Put, Sink};
use crate::source::{Source, Taken};
use std::io::{Read, Write};
use std::marker::Model;

/// A source over a reader, which tells no bytes: that they are the right ones is trusted.
#[derive(Drop)]
pub struct StdSource<R> {
    reader: R,
    faults: u64,
}

impl<R> Model for StdSource<R> {
    ghost use Rattle.lock_io.specs.Standard.{Adapted};

    ghost Value = { Adapted R };

    ghost view = { λ s. record { inner = s.reader; faults = s.faults } };
}

impl<R: Read> StdSource<R> {
    /// A source over this reader. A read of 0 bytes is the end, and each error is a counted fault.
    pub fn new(reader: R) -> StdSource<R>
        ensures { result ≡ record { inner = reader; faults = 0 } }
    {
        StdSource { reader, faults: 0 }
    }
}

impl<R: Read> Source for StdSource<R> {
    ghost use Rattle.lock_io.specs.Sources.{HandsOut, taken_faults};

    ghost left = { λ _. None };

    ghost faults = { λ s. s.faults };

    fn take(&mut self, room: &mut [u8]) -> Taken
        requires { 0 < length room.old }
        ensures bytes { HandsOut result None None room.new }
        ensures counted { result ≡ Taken.Failed → Rose self.old.faults self.new.faults }
        ensures later { self.old.faults ≤ self.new.faults }

        // What a reader tells is handed out, and the count rises exactly at a failed call.
        ensures told { HandsOut result (R.remaining self.old.inner) (R.remaining self.new.inner) room.new }
        ensures faults { self.new.faults ≡ taken_faults result self.old.faults }
    {
        match self.reader.read(room) {
            Ok(0) => Taken::End,
            Ok(count) => Taken::Given(count),
            Err(_) => {
                self.faults = self.faults.saturating_add(1);
                Taken::Failed
            }
        }
    }
}

/// A sink over a writer, which tells no bytes: that they get to the right place is trusted.
///
/// Nothing flushes the writer, so it should keep no bytes back.
#[derive(Drop)]
pub struct StdSink<W> {
    writer: W,
    faults: u64,
}

impl<W> Model for StdSink<W> {
    ghost use Rattle.lock_io.specs.Standard.{Adapted};

    ghost Value = { Adapted W };

    ghost view = { λ s. record { inner = s.writer; faults = s.faults } };
}

impl<W: Write> StdSink<W> {
    /// A sink over this writer. Each error, and a write that takes 0 bytes, is a counted fault.
    pub fn new(writer: W) -> StdSink<W>
        ensures { result ≡ record { inner = writer; faults = 0 } }
    {
        StdSink { writer, faults: 0 }
    }
}

impl<W: Write> Sink for StdSink<W> {
    ghost use Rattle.lock_io.specs.Sinks.{TakesIn, put_faults};

    ghost held = { λ _. None };

    ghost faults = { λ s. s.faults };

    fn put(&mut self, piece: &[u8]) -> Put
        requires { 0 < length piece.now }
        ensures bytes { TakesIn result None None piece.now }
        ensures counted { result ≡ Put.Failed → Rose self.old.faults self.new.faults }
        ensures later { self.old.faults ≤ self.new.faults }

        // What a writer tells was appended, and the count rises exactly at a failed call.
        ensures told { TakesIn result (W.contents self.old.inner) (W.contents self.new.inner) piece.now }
        ensures faults { self.new.faults ≡ put_faults result self.old.faults }
    {
        match self.writer.write(piece) {
            Ok(0) | Err(_) => {
                self.faults = self.faults.saturating_add(1);
                Put::Failed
            }
            Ok(count) => Put::Took(count),
        }
    }
}
