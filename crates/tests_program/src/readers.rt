//! `Reader` and `Writer` over a reader and a writer that move one byte a call and fail at a chosen
//! call.

ghost use Rattle.std.specs.Prelude.{◌≡◌};

use crate::devices::is_failing;
use crate::failures::{LINES, SCHEDULE};
use answer_runs::trace::trace;
use drvhost_devices::device::{Reader, Sink, Source, Writer};
use drvhost_devices::verification::Verification;
use std::alloc::Global;
use std::io;
use std::io::{ErrorKind, Read, Write};
use tests_vectors::ONE_READ_TEXT;

/// A reader of bytes in memory.
#[derive(Drop)]
struct ByteReader<'a> {
    bytes: &'a [u8],
    /// Calls before the one that fails.
    good: Option<usize>,
}

impl Read for ByteReader<'_> {
    fn read(&mut self, buf: &mut [u8]) -> io::Result<usize> {
        if is_failing(&mut self.good) {
            return Err(io::Error::from(ErrorKind::Other));
        }
        match self.bytes.split_first() {
            Some((first, rest)) if !buf.is_empty() => {
                buf[0] = *first;
                self.bytes = rest;
                Ok(1)
            }
            _ => Ok(0),
        }
    }
}

/// A writer to memory.
#[derive(Drop)]
struct ByteWriter {
    written: Vec<u8>,
    /// Calls before the one that fails.
    good: Option<usize>,
    /// Whether that call takes nothing, in place of an error.
    takes_nothing: bool,
}

impl Write for ByteWriter {
    fn write(&mut self, buf: &[u8]) -> io::Result<usize> {
        if is_failing(&mut self.good) {
            if self.takes_nothing {
                return Ok(0);
            }
            return Err(io::Error::from(ErrorKind::Other));
        }
        match buf.first() {
            Some(first) => match self.written.push(*first) {
                Ok(()) => Ok(1),
                Err(_refused) => Err(io::Error::from(ErrorKind::OutOfMemory)),
            },
            None => Ok(0),
        }
    }

    fn flush(&mut self) -> io::Result<()> {
        Ok(())
    }
}

fn writer(alloc: Global, good: Option<usize>, takes_nothing: bool) -> Writer<ByteWriter>
    ensures { ⟦<Writer<ByteWriter> as Sink>⟧.failures result ≡ 0 }
{
    Writer::new(ByteWriter {
        written: Vec::new(alloc),
        good,
        takes_nothing,
    })
}

fn reader(bytes: &'static [u8], good: Option<usize>) -> Reader<ByteReader<'static>>
    ensures { ⟦<Reader<ByteReader<'static>> as Source>⟧.failures result ≡ 0 }
{
    Reader::new(Some(ByteReader { bytes, good }))
}

/// How the devices of a run behave: the calls of each before the one that fails.
#[derive(Clone, Copy)]
struct Devices {
    set: Option<usize>,
    out: Option<usize>,
    /// Whether the write that fails takes nothing.
    takes_nothing: bool,
}

/// How a run ends: its status, the reads and writes that fail, what goes out, and what is told.
#[derive(Clone, Copy)]
struct Ending {
    status: u8,
    unread: u64,
    unwritten: u64,
    lines: &'static [u8],
    told: &'static [u8],
}

/// How it ends where nothing fails.
const WHOLE: Ending = Ending {
    status: 0,
    unread: 0,
    unwritten: 0,
    lines: LINES,
    told: b"",
};

/// Whether a run over such devices ends so.
fn ends(alloc: Global, devices: &Devices, ending: &Ending) -> bool {
    let mut set = reader(ONE_READ_TEXT, devices.set);
    let mut schedule = reader(SCHEDULE, None);
    let mut out = writer(alloc, devices.out, devices.takes_nothing);
    let mut err = writer(alloc, None, false);
    let required = Verification::Required;
    let status = trace(alloc, &mut set, &mut schedule, required, &mut out, &mut err);
    let (unread, unwritten) = (set.failures(), out.failures());
    let (lines, told) = (out.into_inner(), err.into_inner());
    status == ending.status
        && unread == ending.unread
        && schedule.failures() == 0
        && unwritten == ending.unwritten
        && lines.written.as_slice() == ending.lines
        && told.written.as_slice() == ending.told
}

/// A read that fails at any call, also the one that finds the end, is told, and nothing is written.
#[test]
fn each_read_fails_in_turn(rt: HostRuntime) {
    for good in 0..ONE_READ_TEXT.len() + 2 {
        let devices = Devices {
            set: Some(good),
            out: None,
            takes_nothing: false,
        };
        let ending = if good > ONE_READ_TEXT.len() {
            WHOLE
        } else {
            Ending {
                status: 2,
                unread: 1,
                unwritten: 0,
                lines: b"",
                told: b"read failed\n",
            }
        };
        assert!(rt; ends(rt.alloc(), &devices, &ending), "{good}");
    }
}

/// A write that fails, or takes nothing, at any call is told, and a beginning of the lines is
/// there.
#[test]
fn each_write_fails_in_turn(rt: HostRuntime) {
    for good in 0..LINES.len() + 2 {
        let ending = if good < LINES.len() {
            Ending {
                status: 2,
                unread: 0,
                unwritten: 1,
                lines: &LINES[..good],
                told: b"write failed\n",
            }
        } else {
            WHOLE
        };
        for takes_nothing in [false, true] {
            let devices = Devices {
                set: None,
                out: Some(good),
                takes_nothing,
            };
            assert!(rt; ends(rt.alloc(), &devices, &ending), "{good}");
        }
    }
}
