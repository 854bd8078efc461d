//! `drvhost`: the verdict and the trace of driver sets, and what workers make of a script. See the
//! library for what it answers.
#![tactic(auto)]

use drvhost_devices::device::Writer;
use drvhost_devices::surroundings::Surroundings;
use drvhost_files::files::Disk;
use drvhost_words::program::{Setting, answer};
use report_progress::meter::Meter;
use std::env::{self, VarError};
use std::io::{ErrorKind, IsTerminal};
use std::process::ExitCode;
use std::thread::{Threads, available_parallelism};

fn main(rt: HostRuntime) -> ExitCode {
    let mut files = Disk::new(&rt);
    let mut out = Writer::new(rt.stdout());
    let mut err = Writer::new(rt.stderr());
    let setting = Setting {
        alloc: rt.alloc(),
        surroundings: surroundings(&rt, processors(&rt)),
    };
    let meter = Meter::new(
        &rt,
        rt.alloc(),
        rt.stderr(),
        setting.surroundings.is_error_terminal,
    );
    let beside = (&rt, meter);
    let status = answer(&beside, setting, words(&rt), &mut files, &mut out, &mut err);
    ExitCode::from(status)
}

/// The words of the command line, the program's own name first.
fn words(rt: &HostRuntime) -> Result<Vec<String>, ErrorKind> {
    let words = env::args(rt).map_err(|error| error.kind())?;
    words
        .collect(rt.alloc())
        .map_err(|_refused| ErrorKind::OutOfMemory)
}

/// What the program finds around it, where there are so many processors.
fn surroundings(rt: &HostRuntime, processors: usize) -> Surroundings {
    Surroundings {
        is_output_terminal: rt.stdout().is_terminal(),
        is_error_terminal: rt.stderr().is_terminal(),
        is_colorless: is_colorless(rt),
        processors,
    }
}

/// How many processors there are, or one where that isn't known.
fn processors(rt: &impl Threads) -> usize {
    match available_parallelism(rt) {
        Ok(count) => count.get(),
        Err(_unknown) => 1,
    }
}

/// Whether the environment asks for no colour: `NO_COLOR` is set to anything but an empty text, or
/// `TERM` says that the terminal has none.
fn is_colorless(rt: &HostRuntime) -> bool {
    is_set(rt) || is_dumb(rt)
}

/// Whether `NO_COLOR` is set to anything but an empty text.
fn is_set(rt: &HostRuntime) -> bool {
    match env::var(rt, "NO_COLOR") {
        Ok(text) => !text.is_empty(),
        Err(VarError::NotPresent) => false,
        Err(_other) => true,
    }
}

/// Whether `TERM` is `dumb`.
fn is_dumb(rt: &HostRuntime) -> bool {
    match env::var(rt, "TERM") {
        Ok(text) => text.as_str() == "dumb",
        Err(_other) => false,
    }
}
