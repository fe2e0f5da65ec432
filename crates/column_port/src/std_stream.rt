//! The ends that the standard library gives: the trusted edge.

ghost use Rattle.std.specs.Prelude.{◌≡◌, ◌<◌, length, IfOk, None};
ghost use Rattle.std.specs.Io.{ReadsAtMost, WritesAtMost};
ghost use Rattle.std.specs.Io.KnownBytes.{ReadConsumes, WriteAppends};
ghost use Rattle.column_port.specs.Causes.{HasCause};

use crate::sink::Sink;
use crate::source::{Failed, Source};
use std::io::{Read, Write};

/// A source over a reader of the standard library. It tells no content, and counts its own calls that fail.
#[derive(Drop)]
pub struct StdSource<R> {
    reader: R,
    faults: u64,
}

impl<R: Read> StdSource<R> {
    /// A source over this reader, with no fault yet. Takes no memory.
    pub fn new(reader: R) -> Self
        ensures reader { result.reader ≡ reader }
        ensures faults { result.faults ≡ 0 }
    {
        StdSource { reader, faults: 0 }
    }
}

impl<R: Read> Source for StdSource<R> {
    ghost left = { λ _. None };

    ghost faults = { λ source. source.faults };

    /// One read of the reader. Any error of it is a fault.
    fn read(&mut self, piece: &mut [u8]) -> Result<usize, Failed>
        ensures bound { ReadsAtMost result piece.new }
        ensures bytes { ReadConsumes None None result piece.new }
        ensures cause { HasCause self.old.faults self.new.faults result }

        // What the reader tells.
        ensures reader { ReadConsumes (R.remaining self.old.reader) (R.remaining self.new.reader) result piece.new }
    {
        match self.reader.read(piece) {
            Ok(count) => Ok(count),
            Err(_) => {
                self.faults = self.faults.saturating_add(1);
                Err(Failed)
            }
        }
    }
}

/// A sink over a writer of the standard library. It tells no content, and counts its own calls that fail.
#[derive(Drop)]
pub struct StdSink<W> {
    writer: W,
    faults: u64,
}

impl<W: Write> StdSink<W> {
    /// A sink over this writer, with no fault yet. Takes no memory.
    pub fn new(writer: W) -> Self
        ensures writer { result.writer ≡ writer }
        ensures faults { result.faults ≡ 0 }
    {
        StdSink { writer, faults: 0 }
    }
}

impl<W: Write> Sink for StdSink<W> {
    ghost taken = { λ _. None };

    ghost faults = { λ sink. sink.faults };

    /// One write of the writer. Any error of it is a fault, and so is a write of 0 bytes of a piece that isn't empty.
    fn write(&mut self, piece: &[u8]) -> Result<usize, Failed>
        ensures bound { WritesAtMost result piece.now }
        ensures bytes { WriteAppends None None result piece.now }
        ensures progress { IfOk result (λ count. 0 < length piece.now → 0 < count) }
        ensures cause { HasCause self.old.faults self.new.faults result }

        // What the writer tells.
        ensures writer { WriteAppends (W.contents self.old.writer) (W.contents self.new.writer) result piece.now }
    {
        match self.writer.write(piece) {
            Ok(count) if count > 0 || piece.is_empty() => Ok(count),
            _ => {
                self.faults = self.faults.saturating_add(1);
                Err(Failed)
            }
        }
    }
}
