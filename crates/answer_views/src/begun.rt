//! What a run that is shown begins with: its schedule, or what is told of a faulty one; the
//! machine, and a text that names its set.

ghost use Rattle.std.specs.Prelude.{◌≡◌, ◌++◌, [], List, ℕ, IfOk};
ghost use Rattle.interleave.specs.Listing.{IsWithinLimits, schedule_in};
ghost use Rattle.model.specs.Machine.{ShowsWhole};
ghost use Rattle.report.specs.Fault.{schedule_fault_line};
ghost use Rattle.drvhost_devices.specs.Answer.{faulty};

use answer::as_text::faulty;
use checked::Checked;
use drvhost_devices::reading::source_of;
use drvhost_devices::told::Told;
use image::DriverSet;
use interleave::parse::parse_schedule;
use interleave::schedule::{Schedule, ScheduleFault, ScheduleKind};
use interleave_texts::fault_words;
use report::lines::Lines;
use std::alloc::{AllocError, Global};
use std::mem::drop;

/// What a run begins with.
#[derive(Drop)]
pub(crate) struct Begun {
    /// A text that names the set, with its names and its lines.
    pub(crate) source: Vec<u8>,
    pub(crate) machine: Checked,
}

/// What the run of a set by a schedule begins with, by the bytes of the file of the set.
pub(crate) fn begin(
    alloc: Global,
    bytes: &[u8],
    set: DriverSet,
    schedule: &Schedule,
) -> Result<Begun, AllocError>
    requires { IsWithinLimits schedule.now }
    ensures set { IfOk result (λ begun. begun.machine.set ≡ set) }
    ensures shows { IfOk result (λ begun. ShowsWhole begun.machine schedule.now.threads []) }
{
    let Ok(source) = source_of(alloc, bytes, &set) else {
        drop(set);
        return Err(AllocError);
    };
    match Checked::new(alloc, set, schedule.threads) {
        Ok(machine) => Ok(Begun { source, machine }),
        Err((_set, _refused)) => Err(AllocError),
    }
}

/// The schedule that a text lists, or its fault.
pub(crate) fn schedule_of(
    alloc: Global,
    text: &[u8],
) -> Result<Result<Schedule, ScheduleFault>, AllocError>
    ensures read { IfOk result (λ read. schedule_in text.now ≡ read) }
    ensures limits { IfOk result (λ read. IfOk read IsWithinLimits) }
{
    match parse_schedule(alloc, text) {
        Ok(schedule) => Ok(Ok(schedule)),
        Err(fault) => match fault.kind {
            ScheduleKind::Memory => Err(AllocError),
            _ => Ok(Err(fault)),
        },
    }
}

/// What is told of a text that lists no schedule: the line of its fault, with words behind it.
pub(crate) fn told_faulty(
    alloc: Global,
    text: &[u8],
    fault: ScheduleFault,
) -> Result<Told, AllocError>
    ensures { IfOk result (λ answer. (words : List ℕ)
        × (answer ≡ faulty (schedule_fault_line fault ++ words))) }
{
    let mut lines = Lines::new(alloc)?;
    lines.schedule_fault(fault);
    let words = fault_words(alloc, text, fault)?;
    let mut told = Vec::new(alloc);
    told.extend_from_slice(lines.bytes())?;
    told.extend_from_slice(words.as_bytes())?;
    Ok(faulty(alloc, told))
}
