//! What the program reads from and writes to.

ghost use Rattle.std.specs.Prelude.{◌≡◌, ◌≤◌, ◌<◌, ◌↔◌, ℕ, IfOk, IsTrue, List, Option, length};
ghost use Rattle.std.specs.Io.KnownBytes.{WriteAppends};
ghost use Rattle.drvhost_devices.specs.Device.{CanCount, Closed, Counts, Reads, Supply, supply_of};

use std::io::{Read, Write};

/// A read or a write failed.
#[derive(Clone, Copy, Debug, PartialEq, Eq)]
pub struct Failed;

/// Something to read bytes from.
pub trait Source {
    ghost failures: { Self → ℕ };

    // What reads give from here on.
    ghost supply: { Self → Supply };

    /// How often a read of it has failed so far.
    fn failures(&self) -> u64
        ensures { result ≡ failures self.now };

    /// Reads some bytes into the front of `into`, and says how many: 0 at the end. Each read of a
    /// source that is closed fails.
    fn read(&mut self, into: &mut [u8]) -> Result<usize, Failed>
        requires { CanCount (failures self.old) }
        ensures within { IfOk result (λ count. count ≤ length into.old) }
        ensures counted { Counts (failures self.old) result (failures self.new) }
        ensures bytes { Reads (supply self.old) (supply self.new) result into.new };
}

/// Something to write bytes to.
pub trait Sink {
    ghost failures: { Self → ℕ };

    // The bytes that were written to it so far, where they are known.
    ghost contents: { Self → Option (List ℕ) };

    /// How often a write to it has failed so far.
    fn failures(&self) -> u64
        ensures { result ≡ failures self.now };

    /// Writes some bytes of the front of `bytes`, and says how many: at least one where there is
    /// one.
    fn write(&mut self, bytes: &[u8]) -> Result<usize, Failed>
        requires { CanCount (failures self.old) }
        ensures within { IfOk result (λ count. count ≤ length bytes.now) }
        ensures some { IfOk result (λ count. 0 < length bytes.now → 0 < count) }
        ensures counted { Counts (failures self.old) result (failures self.new) }
        ensures bytes { WriteAppends (contents self.old) (contents self.new) result bytes.now };
}

/// A reader as a source: a file, the standard input, or bytes in memory.
#[derive(Drop)]
pub struct Reader<R> {
    reader: Option<R>,
    failures: u64,
}

impl<R: Read> Reader<R> {
    /// The source over a reader. Where there is none, as for a file that can't be opened, each read
    /// fails.
    pub fn new(reader: Option<R>) -> Reader<R>
        ensures failures { ⟦<Reader<R> as Source>⟧.failures result ≡ 0 }
        ensures supply { ⟦<Reader<R> as Source>⟧.supply result ≡ supply_of R.remaining reader }
    {
        Reader {
            reader,
            failures: 0,
        }
    }

    /// Whether there is no reader, so that each read fails.
    pub fn is_closed(&self) -> bool
        ensures { IsTrue result ↔ (⟦<Reader<R> as Source>⟧.supply self.now ≡ Closed) }
    {
        self.reader.is_none()
    }
}

impl<R: Read> Source for Reader<R> {
    ghost use Rattle.drvhost_devices.specs.Outside.{reader_failures, reader_supply};

    ghost failures = { λ source. reader_failures source };

    ghost supply = { λ source. reader_supply R.remaining source };

    fn failures(&self) -> u64 {
        self.failures
    }

    fn read(&mut self, into: &mut [u8]) -> Result<usize, Failed> {
        if let Some(reader) = &mut self.reader {
            if let Ok(count) = reader.read(into) {
                return Ok(count);
            }
        }
        self.failures += 1;
        Err(Failed)
    }
}

/// A writer as a sink: a file, a standard stream, or bytes in memory.
#[derive(Drop)]
pub struct Writer<W> {
    writer: W,
    failures: u64,
}

impl<W: Write> Writer<W> {
    /// The sink over a writer.
    pub fn new(writer: W) -> Writer<W>
        ensures failures { ⟦<Writer<W> as Sink>⟧.failures result ≡ 0 }
        ensures contents { ⟦<Writer<W> as Sink>⟧.contents result ≡ W.contents writer }
    {
        Writer {
            writer,
            failures: 0,
        }
    }

    /// The writer again, with what was written to it.
    pub fn into_inner(self) -> W
        ensures { W.contents result ≡ ⟦<Writer<W> as Sink>⟧.contents self }
    {
        self.writer
    }
}

impl<W: Write> Sink for Writer<W> {
    ghost use Rattle.drvhost_devices.specs.Outside.{writer_contents, writer_failures};

    ghost failures = { λ sink. writer_failures sink };

    ghost contents = { λ sink. writer_contents W.contents sink };

    fn failures(&self) -> u64 {
        self.failures
    }

    fn write(&mut self, bytes: &[u8]) -> Result<usize, Failed> {
        match self.writer.write(bytes) {
            Ok(count) if count > 0 || bytes.is_empty() => Ok(count),
            _ => {
                self.failures += 1;
                Err(Failed)
            }
        }
    }
}
