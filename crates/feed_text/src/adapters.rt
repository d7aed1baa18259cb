// Sources and sinks over std's readers and writers.
ghost use Rattle.std.specs.Io.{ReadsAtMost, WritesAtMost};
ghost use Rattle.std.specs.Prelude.{◌≡◌, None};

use crate::sinks::{Sink, SinkFault};
use crate::sources::{Source, SourceFault};
use causes::one_more;
use std::io::{self, ErrorKind, Read, Write};

// Reads once, and again where a signal interrupts the read.
fn read_once<R: Read>(reader: &mut R, into: &mut [u8]) -> io::Result<usize>
    ensures { ReadsAtMost result into.new }
{
    for _ in 0..u64::MAX {
        match reader.read(into) {
            Err(error) if error.kind() == ErrorKind::Interrupted => {}
            result => return result,
        }
    }
    Err(io::Error::from(ErrorKind::Interrupted))
}

// Writes once, and again where a signal interrupts the write.
fn write_once<W: Write>(writer: &mut W, bytes: &[u8]) -> io::Result<usize>
    ensures { WritesAtMost result bytes.now }
{
    for _ in 0..u64::MAX {
        match writer.write(bytes) {
            Err(error) if error.kind() == ErrorKind::Interrupted => {}
            result => return result,
        }
    }
    Err(io::Error::from(ErrorKind::Interrupted))
}

/// A source over a reader, as standard input. It tells no bytes. A read that a signal interrupts is made again; each other error
/// of the reader is a fault.
#[derive(Drop)]
pub struct ReaderSource<R> {
    reader: R,
    faults: u64,
    reads: u64,
}

impl<R: Read> ReaderSource<R> {
    /// A source that reads from this reader.
    pub fn new(reader: R) -> ReaderSource<R>
        ensures faults { ⟦<ReaderSource<R> as Source>⟧.faults result ≡ 0 }
        ensures reads { ⟦<ReaderSource<R> as Source>⟧.reads result ≡ 0 }
    {
        ReaderSource {
            reader,
            faults: 0,
            reads: 0,
        }
    }
}

impl<R: Read> Source for ReaderSource<R> {
    ghost left = { λ _. None };

    ghost faults = { λ s. s.faults };

    ghost reads = { λ s. s.reads };

    fn read(&mut self, into: &mut [u8]) -> Result<usize, SourceFault> {
        self.reads = one_more(self.reads);
        match read_once(&mut self.reader, into) {
            Ok(count) => Ok(count),
            Err(_) => {
                self.faults = one_more(self.faults);
                Err(SourceFault)
            }
        }
    }
}

/// A sink over a writer, as standard output. It tells no bytes. A write that a signal interrupts is made again; each other error
/// of the writer is a fault, and so is a write that takes nothing of a piece that isn't empty.
#[derive(Drop)]
pub struct WriterSink<W> {
    writer: W,
    faults: u64,
}

impl<W: Write> WriterSink<W> {
    /// A sink that writes to this writer.
    pub fn new(writer: W) -> WriterSink<W>
        ensures faults { ⟦<WriterSink<W> as Sink>⟧.faults result ≡ 0 }
    {
        WriterSink { writer, faults: 0 }
    }
}

impl<W: Write> Sink for WriterSink<W> {
    ghost taken = { λ _. None };

    ghost faults = { λ s. s.faults };

    fn put(&mut self, bytes: &[u8]) -> Result<usize, SinkFault> {
        match write_once(&mut self.writer, bytes) {
            Ok(count) if count > 0 || bytes.is_empty() => Ok(count),
            _ => {
                self.faults = one_more(self.faults);
                Err(SinkFault)
            }
        }
    }
}
