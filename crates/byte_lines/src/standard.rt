ghost use Rattle.std.specs.Prelude.{◌≡◌, ◌+◌, ◌<◌, ◌≤◌, length, take, IfOk, OnOk, OnErr};
ghost use Rattle.std.specs.Io.KnownBytes.{Appends, Consumes, IsAtEnd, Keeps};

use crate::devices::{ByteSink, ByteSource, DeviceFault};
use crate::faults::FaultCount;
use std::io::{Read, Stdin, Stdout, Write};

/// Gives the bytes of a reader, which each read asks once, and where that fails or is interrupted not again. It has failed, too,
/// once it has asked the reader 2^64 - 1 times.
#[derive(Drop)]
pub struct ReaderSource<R: Read> {
    reader: R,
    reads_left: u64,
    /// For contracts alone.
    last_read: usize,
    faults: FaultCount,
}

/// The bytes of standard input, which no contract knows.
pub type StandardInput = ReaderSource<Stdin>;

impl<R: Read> ReaderSource<R> {
    pub fn new(reader: R) -> ReaderSource<R>
        ensures bytes { ⟦<ReaderSource<R> as ByteSource>⟧.remaining result ≡ R.remaining reader }
        ensures faults { ⟦<ReaderSource<R> as ByteSource>⟧.faults result ≡ 0 }
        ensures reads { ⟦<ReaderSource<R> as ByteSource>⟧.reads_left result ≡ u64.MAX }
    {
        ReaderSource {
            reader,
            reads_left: u64::MAX,
            last_read: 0,
            faults: FaultCount::Never,
        }
    }
}

impl<R: Read> ByteSource for ReaderSource<R> {
    ghost use Rattle.byte_lines.specs.Faults.{number_of};

    ghost remaining = { λ s. R.remaining s.reader };

    ghost faults = { λ s. number_of s.faults };

    ghost reads_left = { λ s. s.reads_left };

    ghost last_read = { λ s. s.last_read };

    fn read(&mut self, buffer: &mut [u8]) -> Result<usize, DeviceFault> {
        if self.reads_left > 0 {
            self.reads_left -= 1;
            if let Ok(count) = self.reader.read(buffer) {
                self.last_read = count;
                return Ok(count);
            }
        }
        self.faults.add();
        Err(DeviceFault)
    }
}

/// Hands bytes to a writer as they come, so the writer is one that keeps none back. Each write asks it once, and where that
/// fails, is interrupted or takes nothing, not again.
#[derive(Drop)]
pub struct WriterSink<W: Write> {
    writer: W,
    faults: FaultCount,
}

/// Standard output, of whose bytes no contract knows.
pub type StandardOutput = WriterSink<Stdout>;

impl<W: Write> WriterSink<W> {
    pub fn new(writer: W) -> WriterSink<W>
        ensures bytes { ⟦<WriterSink<W> as ByteSink>⟧.contents result ≡ W.contents writer }
        ensures faults { ⟦<WriterSink<W> as ByteSink>⟧.faults result ≡ 0 }
    {
        WriterSink {
            writer,
            faults: FaultCount::Never,
        }
    }
}

impl<W: Write> ByteSink for WriterSink<W> {
    ghost use Rattle.byte_lines.specs.Faults.{number_of};

    ghost contents = { λ s. W.contents s.writer };

    ghost faults = { λ s. number_of s.faults };

    fn write(&mut self, bytes: &[u8]) -> Result<usize, DeviceFault> {
        if let Ok(count) = self.writer.write(bytes) {
            if count > 0 || bytes.is_empty() {
                return Ok(count);
            }
        }
        self.faults.add();
        Err(DeviceFault)
    }
}
