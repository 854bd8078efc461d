//! What `trace` answers of a set.

use answer_runs::trace::trace;
use drvhost_devices::device::{Reader, Sink, Source, Writer};
use drvhost_devices::verification::Verification;
use std::alloc::Global;

/// What is answered: the exit status, what goes out, and what the error writer is given.
#[derive(Drop)]
pub(crate) struct Answer {
    pub(crate) status: u8,
    pub(crate) lines: Vec<u8>,
    pub(crate) told: Vec<u8>,
    /// Whether a read of the set or a write failed.
    has_failed: bool,
}

/// What the trace of a schedule answers.
pub(crate) fn answer_of(
    alloc: Global,
    set: &[u8],
    schedule: &[u8],
    verification: Verification,
) -> Answer {
    let mut source = Reader::new(Some(set));
    let mut events = Reader::new(Some(schedule));
    let mut output = Writer::new(Vec::<u8>::new(alloc));
    let mut errors = Writer::new(Vec::<u8>::new(alloc));
    let status = trace(
        alloc,
        &mut source,
        &mut events,
        verification,
        &mut output,
        &mut errors,
    );
    Answer {
        status,
        has_failed: source.failures() != 0 || output.failures() != 0 || errors.failures() != 0,
        lines: output.into_inner(),
        told: errors.into_inner(),
    }
}

/// What the trace of a schedule writes, where it ends well and nothing is told.
pub(crate) fn traced(
    alloc: Global,
    set: &[u8],
    schedule: &[u8],
    verification: Verification,
) -> Option<Vec<u8>> {
    let Answer {
        status,
        lines,
        told,
        has_failed,
    } = answer_of(alloc, set, schedule, verification);
    let is_well = status == 0 && !has_failed && told.is_empty();
    if is_well { Some(lines) } else { None }
}
