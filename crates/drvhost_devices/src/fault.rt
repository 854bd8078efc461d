//! What keeps a job from its answer, and how it is told.

ghost use Rattle.std.specs.Prelude.{◌≡◌};
ghost use Rattle.drvhost_devices.specs.Answer.{end_status};
ghost use Rattle.drvhost_devices.specs.Device.{CanCount, Says};
ghost use Rattle.drvhost_devices.specs.Fault.{fault_status, fault_told, image_fault};
ghost use Rattle.drvhost_devices.specs.Fault.{schedule_fault, script_fault, status_of, text_fault};
ghost use Rattle.drvhost_devices.specs.Fault.{told_of};

use crate::device::Sink;
use crate::transfer::write_whole;
use asm::{AsmFault, AsmKind};
use image::ImageFault;
use interleave::schedule::{ScheduleFault, ScheduleKind};
use model::memory::OutOfMemory;
use report::fault::{OUT_OF_MEMORY, READ_FAILED, WRITE_FAILED};
use report::lines::Lines;
use std::alloc::AllocError;

/// How a job that met no fault ended.
#[derive(Clone, Copy)]
pub enum End {
    /// The set is accepted, or the run came to the end of its schedule.
    Complete,
    /// The set is refused, or a bug check or a wrong operand stopped the run.
    Stopped,
}

impl End {
    /// The exit status.
    pub fn status(self) -> u8
        ensures { result ≡ end_status self }
    {
        match self {
            End::Complete => 0,
            End::Stopped => 1,
        }
    }
}

/// What keeps a job from its answer.
#[derive(Clone, Copy)]
pub enum Fault {
    /// A read failed.
    Read,
    /// A write failed.
    Write,
    /// A growth was refused.
    Memory,
    /// The text of the set is faulty.
    Text(AsmFault),
    /// The image of the set is faulty.
    Image(ImageFault),
    /// The schedule is faulty.
    Schedule(ScheduleFault),
    /// The script is faulty.
    Script(ScheduleFault),
}

impl Fault {
    /// The exit status: 3 where memory ran out, else 2.
    pub fn status(self) -> u8
        ensures { result ≡ fault_status self }
    {
        match self {
            Fault::Memory => 3,
            Fault::Read
            | Fault::Write
            | Fault::Text(_)
            | Fault::Image(_)
            | Fault::Schedule(_)
            | Fault::Script(_) => 2,
        }
    }
}

impl From<AllocError> for Fault {
    ghost use Rattle.drvhost_devices.specs.declared.fault.Fault.TheVariants.{Memory};

    ghost from_gives = { λ _ fault. fault ≡ Memory };

    fn from(_refused: AllocError) -> Fault {
        Fault::Memory
    }
}

impl From<OutOfMemory> for Fault {
    ghost use Rattle.drvhost_devices.specs.declared.fault.Fault.TheVariants.{Memory};

    ghost from_gives = { λ _ fault. fault ≡ Memory };

    fn from(_refused: OutOfMemory) -> Fault {
        Fault::Memory
    }
}

/// The fault of a text of a set.
pub(crate) fn of_text(fault: AsmFault) -> Fault
    ensures { result ≡ text_fault fault }
{
    match fault.kind {
        AsmKind::Memory => Fault::Memory,
        _ => Fault::Text(fault),
    }
}

/// The fault of an image of a set.
pub(crate) fn of_image(fault: ImageFault) -> Fault
    ensures { result ≡ image_fault fault }
{
    match fault {
        ImageFault::Memory => Fault::Memory,
        _ => Fault::Image(fault),
    }
}

/// The fault of a schedule.
pub fn of_schedule(fault: ScheduleFault) -> Fault
    ensures { result ≡ schedule_fault fault }
{
    match fault.kind {
        ScheduleKind::Memory => Fault::Memory,
        _ => Fault::Schedule(fault),
    }
}

/// The fault of a script.
pub fn of_script(fault: ScheduleFault) -> Fault
    ensures { result ≡ script_fault fault }
{
    match fault.kind {
        ScheduleKind::Memory => Fault::Memory,
        _ => Fault::Script(fault),
    }
}

/// Ends a job: a fault is told on the error writer. The answer is the exit status, which stays the
/// same where the error writer fails.
pub fn finish<E: Sink>(end: Result<End, Fault>, lines: &mut Lines, err: &mut E) -> u8
    requires { CanCount (E.failures err.old) }
    ensures status { result ≡ status_of end }
    ensures told { Says (E.failures err.old) (E.failures err.new) (E.contents err.old)
        (E.contents err.new) (told_of end) }
{
    match end {
        Ok(end) => end.status(),
        Err(fault) => {
            tell(fault, lines, err);
            fault.status()
        }
    }
}

/// Tells a fault on the error writer.
fn tell<E: Sink>(fault: Fault, lines: &mut Lines, err: &mut E)
    requires { CanCount (E.failures err.old) }
    ensures { Says (E.failures err.old) (E.failures err.new) (E.contents err.old)
        (E.contents err.new) (fault_told fault) }
{
    match fault {
        Fault::Read => say(err, READ_FAILED.as_bytes()),
        Fault::Write => say(err, WRITE_FAILED.as_bytes()),
        Fault::Memory => say(err, OUT_OF_MEMORY.as_bytes()),
        Fault::Text(fault) => {
            lines.clear();
            lines.text_fault(fault);
            say(err, lines.bytes());
        }
        Fault::Image(fault) => {
            lines.clear();
            lines.image_fault(fault);
            say(err, lines.bytes());
        }
        Fault::Schedule(fault) => {
            lines.clear();
            lines.schedule_fault(fault);
            say(err, lines.bytes());
        }
        Fault::Script(fault) => {
            lines.clear();
            lines.script_fault(fault);
            say(err, lines.bytes());
        }
    }
}

/// Tells that memory ran out before anything else was done, and answers with the exit status for
/// it.
pub fn no_memory<E: Sink>(err: &mut E) -> u8
    requires { CanCount (E.failures err.old) }
    ensures status { result ≡ fault_status Fault.Memory }
    ensures told { Says (E.failures err.old) (E.failures err.new) (E.contents err.old)
        (E.contents err.new) (fault_told Fault.Memory) }
{
    say(err, OUT_OF_MEMORY.as_bytes());
    Fault::Memory.status()
}

/// Writes to the error writer; there is no one left to tell where that fails.
pub fn say<E: Sink>(err: &mut E, text: &[u8])
    requires { CanCount (E.failures err.old) }
    ensures { Says (E.failures err.old) (E.failures err.new) (E.contents err.old)
        (E.contents err.new) text.now }
{
    let _ = write_whole(err, text);
}
