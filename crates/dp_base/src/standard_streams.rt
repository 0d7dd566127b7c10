//! Sources and sinks over the readers and writers of `std`, and with them standard input and
//! output. They tell the bytes that the reader or the writer tells; the standard streams tell none.

ghost use Rattle.std.specs.Prelude.{◌≡◌};

use crate::sink::Sink;
use crate::source::{Failed, Source};
use std::io::{ErrorKind, Read, Stdin, Stdout, Write};

/// A source over a reader.
#[derive(Drop)]
pub struct ReadSource<R> {
    reader: R,
    faults: u64,
}

/// Standard input.
pub type StdSource = ReadSource<Stdin>;

impl<R: Read> ReadSource<R> {
    /// A source over the reader. It has counted no fault.
    pub fn over(reader: R) -> ReadSource<R>
        ensures left { ⟦<ReadSource<R> as Source>⟧.left result ≡ R.remaining reader }
        ensures faults { ⟦<ReadSource<R> as Source>⟧.faults result ≡ 0 }
    {
        ReadSource { reader, faults: 0 }
    }
}

impl ReadSource<Stdin> {
    /// Standard input of the runtime. It has counted no fault.
    pub fn new(rt: &HostRuntime) -> StdSource
        ensures { ⟦<ReadSource<Stdin> as Source>⟧.faults result ≡ 0 }
    {
        ReadSource::over(rt.stdin())
    }
}

impl<R: Read> Source for ReadSource<R> {
    ghost left = { λ s. R.remaining s.reader };

    ghost faults = { λ s. s.faults };

    // A read that a signal interrupted has moved nothing, and is made again.
    // The loop is a range, since an endless one has no measure that a proof could name; nothing is
    // interrupted as often as it turns.
    fn read(&mut self, buffer: &mut [u8]) -> Result<usize, Failed> {
        for _ in 0..u64::MAX {
            match self.reader.read(buffer) {
                Ok(count) => return Ok(count),
                Err(error) if error.kind() == ErrorKind::Interrupted => {}
                Err(_) => break,
            }
        }
        self.faults = self.faults.saturating_add(1);
        Err(Failed)
    }
}

/// A sink over a writer.
#[derive(Drop)]
pub struct WriteSink<W> {
    writer: W,
    faults: u64,
}

/// Standard output. It holds nothing back: what a write took is with the system.
pub type StdSink = WriteSink<Stdout>;

impl<W: Write> WriteSink<W> {
    /// A sink over the writer. It has counted no fault.
    pub fn over(writer: W) -> WriteSink<W>
        ensures written { ⟦<WriteSink<W> as Sink>⟧.written result ≡ W.contents writer }
        ensures faults { ⟦<WriteSink<W> as Sink>⟧.faults result ≡ 0 }
    {
        WriteSink { writer, faults: 0 }
    }
}

impl WriteSink<Stdout> {
    /// Standard output of the runtime. It has counted no fault.
    pub fn new(rt: &HostRuntime) -> StdSink
        ensures { ⟦<WriteSink<Stdout> as Sink>⟧.faults result ≡ 0 }
    {
        WriteSink::over(rt.stdout())
    }
}

impl<W: Write> Sink for WriteSink<W> {
    ghost written = { λ s. W.contents s.writer };

    ghost faults = { λ s. s.faults };

    // A write that a signal interrupted has moved nothing, and is made again. A writer that takes
    // nothing of a piece would be asked for ever, so that counts as a fault. The loop is a range for
    // the same reason as the source's.
    fn write(&mut self, piece: &[u8]) -> Result<usize, Failed> {
        for _ in 0..u64::MAX {
            match self.writer.write(piece) {
                Ok(count) if count > 0 || piece.is_empty() => return Ok(count),
                Err(error) if error.kind() == ErrorKind::Interrupted => {}
                _ => break,
            }
        }
        self.faults = self.faults.saturating_add(1);
        Err(Failed)
    }
}
