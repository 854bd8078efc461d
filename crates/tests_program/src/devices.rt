//! Devices that move few bytes a call, or fail at a chosen call, once: where it is tried again,
//! they go on as if nothing had happened.

ghost use Rattle.std.specs.Prelude.{◌≡◌, Some};
ghost use Rattle.drvhost_devices.specs.Device.{Unknown};

use drvhost_devices::device::{Failed, Sink, Source};
use std::alloc::Global;

/// A source of bytes in memory.
#[derive(Drop)]
pub(crate) struct Slow<'a> {
    bytes: &'a [u8],
    /// Bytes a call, at most.
    step: usize,
    /// Calls before the one that fails.
    good: Option<usize>,
    failures: u64,
}

impl<'a> Slow<'a> {
    pub(crate) fn new(bytes: &'a [u8], step: usize, good: Option<usize>) -> Slow<'a>
        ensures { result.failures ≡ 0 }
    {
        Slow {
            bytes,
            step,
            good,
            failures: 0,
        }
    }
}

impl Source for Slow<'_> {
    ghost failures = { λ source. source.failures };

    ghost supply = { λ _. Unknown };

    fn failures(&self) -> u64 {
        self.failures
    }

    fn read(&mut self, into: &mut [u8]) -> Result<usize, Failed> {
        if is_failing(&mut self.good) {
            self.failures += 1;
            return Err(Failed);
        }
        let count = self.bytes.len().min(into.len()).min(self.step);
        let (given, rest) = self.bytes.split_at(count);
        into[..count].copy_from_slice(given);
        self.bytes = rest;
        Ok(count)
    }
}

/// A sink in memory.
#[derive(Drop)]
pub(crate) struct Narrow {
    pub(crate) written: Vec<u8>,
    /// Bytes a call, at most; 0 is taken as 1.
    step: usize,
    /// Calls before the one that fails.
    good: Option<usize>,
    failures: u64,
}

impl Narrow {
    pub(crate) fn new(alloc: Global, step: usize, good: Option<usize>) -> Narrow
        ensures { result.failures ≡ 0 }
    {
        Narrow {
            written: Vec::new(alloc),
            step,
            good,
            failures: 0,
        }
    }
}

impl Sink for Narrow {
    ghost failures = { λ sink. sink.failures };

    ghost contents = { λ sink. Some sink.written.items };

    fn failures(&self) -> u64 {
        self.failures
    }

    fn write(&mut self, bytes: &[u8]) -> Result<usize, Failed> {
        let count = bytes.len().min(self.step.max(1));
        if is_failing(&mut self.good) || self.written.extend_from_slice(&bytes[..count]).is_err() {
            self.failures += 1;
            return Err(Failed);
        }
        Ok(count)
    }
}

/// Counts a call, and says whether it is the one that fails.
pub(crate) fn is_failing(good: &mut Option<usize>) -> bool {
    match *good {
        None => false,
        Some(0) => {
            *good = None;
            true
        }
        Some(left) => {
            *good = Some(left - 1);
            false
        }
    }
}

/// Whether sinks were given a page, or so many bytes of it before a write failed, which is told.
pub(crate) fn have_taken(
    out: &Narrow,
    err: &Narrow,
    status: u8,
    page: &[u8],
    calls: usize,
) -> bool {
    match page.get(..calls) {
        Some(beginning) if calls < page.len() => {
            status == 2
                && out.written.as_slice() == beginning
                && err.written.as_slice() == b"write failed\n".as_slice()
        }
        _ => status == 0 && out.written.as_slice() == page && err.written.is_empty(),
    }
}
