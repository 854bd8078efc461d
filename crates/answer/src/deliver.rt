//! The shell: what a file has is read, answered, and the answer written.

ghost use Rattle.std.specs.Prelude.{◌≡◌, ◌⊎◌, ℕ, IfOk, Ok};
ghost use Rattle.drvhost_devices.specs.Device.{CanCount, Says};
ghost use Rattle.drvhost_devices.specs.Ends.{Answers};
ghost use Rattle.drvhost_devices.specs.Fault.{fault_status, fault_told};
ghost use Rattle.drvhost_devices.specs.Ready.{CanAnswer, CanWrite};
ghost use Rattle.answer.specs.Delivered.{IsAnswerFor, IsAnswerTo};

use crate::content::{Content, Named};
use crate::job::Job;
use drvhost_devices::device::{Sink, Source};
use drvhost_devices::fault::{Fault, no_memory, say};
use drvhost_devices::told::{self, Told};
use drvhost_devices::transfer::read_whole;
use report::fault::READ_FAILED;
use std::alloc::{AllocError, Global};

/// Reads the file of a name, and writes what a job answers for it. The answer is the exit status:
/// that of what was written, 2 where a read or a write failed, 3 where memory ran out, and then
/// nothing was written.
pub fn deliver<J: Job, S: Source, O: Sink, E: Sink>(
    job: &J,
    alloc: Global,
    name: &str,
    file: &mut S,
    out: &mut O,
    err: &mut E,
) -> u8
    requires { CanAnswer O.Sink E.Sink (S.failures file.old) out.old err.old }
    ensures { Answers (IsAnswerFor J.Job job.now name.now (S.supply file.old))
        (S.failures file.old) (S.failures file.new) (O.failures out.old) (O.failures out.new)
        (O.contents out.old) (O.contents out.new)
        (Says (E.failures err.old) (E.failures err.new) (E.contents err.old) (E.contents err.new))
        result }
{
    match read_whole(alloc, file) {
        Ok(bytes) => { write_answer(answer_to(job, alloc, name, bytes.as_slice()), out, err) }
        Err(fault) => tell_unread(fault, err),
    }
}

/// What a job answers for the file of a name that has these bytes.
pub fn answer_to<J: Job>(
    job: &J,
    alloc: Global,
    name: &str,
    bytes: &[u8],
) -> Result<Told, AllocError>
    ensures { IfOk result (IsAnswerTo J.Job job.now name.now bytes.now) }
{
    let set = Named {
        name,
        content: Content::Whole(bytes),
    };
    Ok(job.answer(alloc, &set)?)
}

/// Writes an answer, or tells that there was no memory for one. The answer is the exit status: 2
/// where the output takes but a beginning.
pub fn write_answer<O: Sink, E: Sink>(
    answer: Result<Told, AllocError>,
    out: &mut O,
    err: &mut E,
) -> u8
    requires { CanWrite O.Sink E.Sink out.old err.old }
    ensures { (reads : ℕ) → Answers (λ told. answer ≡ Ok told) reads reads
        (O.failures out.old) (O.failures out.new) (O.contents out.old) (O.contents out.new)
        (Says (E.failures err.old) (E.failures err.new) (E.contents err.old) (E.contents err.new))
        result }
{
    match answer {
        Ok(told) => told::deliver(&told, out, err),
        Err(AllocError) => no_memory(err),
    }
}

/// Tells why a file wasn't read. The answer is the exit status.
pub fn tell_unread<E: Sink>(fault: Fault, err: &mut E) -> u8
    requires fault { (fault ≡ Fault.Read) ⊎ (fault ≡ Fault.Memory) }
    requires err { CanCount (E.failures err.old) }
    ensures status { result ≡ fault_status fault }
    ensures told { Says (E.failures err.old) (E.failures err.new) (E.contents err.old)
        (E.contents err.new) (fault_told fault) }
{
    match fault {
        Fault::Read => {
            say(err, READ_FAILED.as_bytes());
            2
        }
        Fault::Memory => no_memory(err),
        Fault::Write | Fault::Text(_) | Fault::Image(_) | Fault::Schedule(_) | Fault::Script(_) =>
            unreachable!(),
    }
}
