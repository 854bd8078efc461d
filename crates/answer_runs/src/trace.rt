//! The trace of a run, in any form.

ghost use Rattle.std.specs.Prelude.{◌≡◌, ◌+◌, ◌⊎◌, ℕ, IfErr, IfOk};
ghost use Rattle.interleave.specs.Listing.{IsWithinLimits};
ghost use Rattle.drvhost_devices.specs.Device.{CanCount, Says};
ghost use Rattle.drvhost_devices.specs.Ends.{Answers, AnswersOver, HoldsRun, IsTraceOf};
ghost use Rattle.drvhost_devices.specs.Fault.{reads_failed, status_of, told_of, writes_failed};
ghost use Rattle.drvhost_devices.specs.Ready.{CanAnswer, CanWrite};
ghost use Rattle.answer.specs.Run.{IsRunOf, IsRunOfBytes, IsSetToRun, set_chosen};
ghost use Rattle.answer_runs.specs.InJson.{IsTraceJsonOf};
ghost use Rattle.answer_runs.specs.Traced.{Streams};
ghost use Rattle.answer_runs.specs.Tracing.{IsOfReady, IsReadyFor, IsRunBy, IsTracedBy};
ghost use Rattle.answer_runs.specs.Tracing.{IsTracedOf, IsWithin};

use crate::run_form::RunForm;
use answer::as_json::Json;
use answer::as_text::Text;
use answer::deliver::{tell_unread, write_answer};
use answer::form::Form;
use answer::run::{Begun, Chosen, ToRun};
use checked::Checked;
use drvhost_devices::device::{Sink, Source};
use drvhost_devices::fault::{End, Fault, say};
use drvhost_devices::reading::read_schedule;
use drvhost_devices::told::Told;
use drvhost_devices::transfer::read_whole;
use drvhost_devices::verification::Verification;
use interleave::schedule::Schedule;
use machine::World;
use report::fault::WRITE_FAILED;
use std::alloc::Global;
use std::mem::drop;

/// The job of running a set by a schedule, event by event: it is told as it goes.
#[derive(Clone, Copy)]
pub struct Tracing;

/// Runs a driver set by a schedule, and writes a line for each event, up to the first bug check or
/// wrong operand. Where verification is required, a refused set isn't run, and what is written is
/// the line of its refusal. The answer is the exit status: 0 where the run came to the end of its
/// schedule, 1 where the set was refused or the run stopped, 2 where an input is faulty or a read
/// or a write failed, 3 where memory ran out. Faults are told on the error writer: those of the set
/// before a refusal, and a refusal before those of the schedule, which is read for a run alone.
pub fn trace<S: Source, P: Source, O: Sink, E: Sink>(
    alloc: Global,
    set: &mut S,
    schedule: &mut P,
    verification: Verification,
    out: &mut O,
    err: &mut E,
) -> u8
    requires devices { CanAnswer O.Sink E.Sink (S.failures set.old) out.old err.old }
    requires schedule { CanCount (P.failures schedule.old) }
    ensures unread { (schedule.new ≡ schedule.old) ⊎ HoldsRun verification (S.supply set.old) }
    ensures answers { AnswersOver O.Sink E.Sink
        (IsTraceOf verification (S.supply set.old) (P.supply schedule.old))
        (S.failures set.old + P.failures schedule.old)
        (S.failures set.new + P.failures schedule.new) out.old out.new err.old err.new result }
{
    let run = ToRun {
        job: Tracing,
        form: Text,
        verification,
        set: "",
        input: "",
    };
    deliver_trace(&run, alloc, set, schedule, out, err)
}

/// A run whose trace is asked for: the names of its files, and whether the set has to be accepted.
#[derive(Clone, Copy)]
pub struct TraceOptions<'n> {
    pub set: &'n str,
    pub schedule: &'n str,
    pub verification: Verification,
}

/// The same in lines of JSON. The fault of a file is written as a line too. That a read or a write
/// failed or memory ran out is told on the error writer.
pub fn trace_json<S: Source, P: Source, O: Sink, E: Sink>(
    alloc: Global,
    asked: TraceOptions<'_>,
    set: &mut S,
    schedule: &mut P,
    out: &mut O,
    err: &mut E,
) -> u8
    requires devices { CanAnswer O.Sink E.Sink (S.failures set.old) out.old err.old }
    requires schedule { CanCount (P.failures schedule.old) }
    ensures unread { (schedule.new ≡ schedule.old)
        ⊎ HoldsRun asked.entry.verification (S.supply set.old) }
    ensures answers { AnswersOver O.Sink E.Sink
        (IsTraceJsonOf asked.entry (S.supply set.old) (P.supply schedule.old))
        (S.failures set.old + P.failures schedule.old)
        (S.failures set.new + P.failures schedule.new) out.old out.new err.old err.new result }
{
    let run = ToRun {
        job: Tracing,
        form: Json,
        verification: asked.verification,
        set: asked.set,
        input: asked.schedule,
    };
    deliver_trace(&run, alloc, set, schedule, out, err)
}

/// Runs the set of one file by the schedule of another one, which is read for a run alone, and
/// writes what is told of each event as it goes. The answer is the exit status.
pub fn deliver_trace<F: Form + RunForm, S: Source, P: Source, O: Sink, E: Sink>(
    run: &ToRun<'_, Tracing, F>,
    alloc: Global,
    set: &mut S,
    schedule: &mut P,
    out: &mut O,
    err: &mut E,
) -> u8
    requires devices { CanAnswer O.Sink E.Sink (S.failures set.old) out.old err.old }
    requires schedule { CanCount (P.failures schedule.old) }
    ensures unread { (schedule.new ≡ schedule.old)
        ⊎ HoldsRun run.now.verification (S.supply set.old) }
    ensures answers { AnswersOver O.Sink E.Sink
        (IsRunOf F.Form run.now.form run.now.set.now run.now.verification
        (IsTracedBy F.RunForm run.now.form run.now.input.now)
        (S.supply set.old) (P.supply schedule.old))
        (S.failures set.old + P.failures schedule.old)
        (S.failures set.new + P.failures schedule.new) out.old out.new err.old err.new result }
{
    match get_ready(run, alloc, set, schedule) {
        Ok(ready) => tell_ready(&run.form, alloc, ready, out, err),
        Err(fault) => tell_unread(fault, err),
    }
}

/// What a run takes.
#[derive(Drop)]
pub(crate) enum Ready {
    /// This set is run by this schedule.
    Runs(Chosen, Schedule),
    /// None is, and this is the answer.
    Kept(Told),
}

/// Reads the file of a set, and that of a schedule where the set is run.
fn get_ready<F: Form + RunForm, S: Source, P: Source>(
    run: &ToRun<'_, Tracing, F>,
    alloc: Global,
    set: &mut S,
    schedule: &mut P,
) -> Result<Ready, Fault>
    requires set { CanCount (S.failures set.old) }
    requires schedule { CanCount (P.failures schedule.old) }
    ensures unread { (schedule.new ≡ schedule.old)
        ⊎ HoldsRun run.now.verification (S.supply set.old) }
    ensures ready { IfOk result (IsReadyFor F.RunForm run.now.form
        (IsRunOf F.Form run.now.form run.now.set.now run.now.verification
        (IsTracedBy F.RunForm run.now.form run.now.input.now)
        (S.supply set.old) (P.supply schedule.old))) }
    ensures limits { IfOk result IsWithin }
    ensures fault { IfErr result (λ fault. (fault ≡ Fault.Read) ⊎ (fault ≡ Fault.Memory)) }
    ensures reads { S.failures set.new + P.failures schedule.new
        ≡ S.failures set.old + P.failures schedule.old + reads_failed result }
{
    let bytes = read_whole(alloc, set)?;
    ready_for(run, alloc, bytes.as_slice(), schedule)
}

/// Reads the file of a schedule where the bytes of the other file are a set that is run.
fn ready_for<F: Form + RunForm, P: Source>(
    run: &ToRun<'_, Tracing, F>,
    alloc: Global,
    bytes: &[u8],
    schedule: &mut P,
) -> Result<Ready, Fault>
    requires { CanCount (P.failures schedule.old) }
    ensures unread { (schedule.new ≡ schedule.old) ⊎ IsSetToRun run.now.verification bytes.now }
    ensures ready { IfOk result (IsReadyFor F.RunForm run.now.form
        (IsRunOfBytes F.Form run.now.form run.now.set.now run.now.verification
        (IsTracedBy F.RunForm run.now.form run.now.input.now)
        bytes.now (P.supply schedule.old))) }
    ensures limits { IfOk result IsWithin }
    ensures fault { IfErr result (λ fault. (fault ≡ Fault.Read) ⊎ (fault ≡ Fault.Memory)) }
    ensures reads { P.failures schedule.new ≡ P.failures schedule.old + reads_failed result }
{
    match run.begin(alloc, bytes)? {
        Begun::Runs(chosen) => with_schedule(run, alloc, chosen, schedule),
        Begun::Kept(told) => Ok(Ready::Kept(told)),
    }
}

/// Reads the file of the schedule by which a set is run.
fn with_schedule<F: Form + RunForm, P: Source>(
    run: &ToRun<'_, Tracing, F>,
    alloc: Global,
    chosen: Chosen,
    schedule: &mut P,
) -> Result<Ready, Fault>
    requires { CanCount (P.failures schedule.old) }
    ensures ready { IfOk result (IsReadyFor F.RunForm run.now.form
        (IsTracedOf F.RunForm run.now.form run.now.input.now (P.supply schedule.old)
        (set_chosen chosen))) }
    ensures limits { IfOk result IsWithin }
    ensures fault { IfErr result (λ fault. (fault ≡ Fault.Read) ⊎ (fault ≡ Fault.Memory)) }
    ensures reads { P.failures schedule.new ≡ P.failures schedule.old + reads_failed result }
{
    match read_schedule(alloc, schedule) {
        Ok(schedule) => Ok(Ready::Runs(chosen, schedule)),
        Err(Fault::Schedule(fault)) => {
            drop(chosen);
            let told = run.form.schedule_fault(alloc, run.input, fault)?;
            Ok(Ready::Kept(told))
        }
        Err(fault) => {
            drop(chosen);
            Err(fault)
        }
    }
}

/// Runs what is ready, or writes the answer where nothing is run.
fn tell_ready<F: RunForm, O: Sink, E: Sink>(
    form: &F,
    alloc: Global,
    ready: Ready,
    out: &mut O,
    err: &mut E,
) -> u8
    requires limits { IsWithin ready }
    requires devices { CanWrite O.Sink E.Sink out.old err.old }
    ensures { (reads : ℕ) → Answers (IsOfReady F.RunForm form.now ready) reads reads
        (O.failures out.old) (O.failures out.new) (O.contents out.old) (O.contents out.new)
        (Says (E.failures err.old) (E.failures err.new) (E.contents err.old) (E.contents err.new))
        result }
{
    match ready {
        Ready::Runs(chosen, schedule) => {
            let end = run_chosen(form, alloc, chosen, &schedule, out);
            tell_end(end, err)
        }
        Ready::Kept(told) => write_answer(Ok(told), out, err),
    }
}

/// Runs a set by a schedule: an accepted one to its end, and any other up to the first bug check or
/// wrong operand.
fn run_chosen<F: RunForm, O: Sink>(
    form: &F,
    alloc: Global,
    chosen: Chosen,
    schedule: &Schedule,
    out: &mut O,
) -> Result<End, Fault>
    requires limits { IsWithinLimits schedule.now }
    requires out { CanCount (O.failures out.old) }
    ensures streams { Streams (IsRunBy F.RunForm form.now schedule.now (set_chosen chosen))
        (O.contents out.old) (O.contents out.new) result }
    ensures fault { IfErr result (λ fault. (fault ≡ Fault.Write) ⊎ (fault ≡ Fault.Memory)) }
    ensures writes { O.failures out.new ≡ O.failures out.old + writes_failed result }
{
    match chosen {
        Chosen::Accepted(accepted) => match World::new(alloc, accepted, schedule.threads) {
            Ok(mut world) => form.follow(alloc, &mut world, schedule, out),
            Err((_accepted, _refused)) => Err(Fault::Memory),
        },
        Chosen::Any(set) => match Checked::new(alloc, set, schedule.threads) {
            Ok(mut machine) => form.follow(alloc, &mut machine, schedule, out),
            Err((_set, _refused)) => Err(Fault::Memory),
        },
    }
}

/// Ends a run: what broke it off is told on the error writer. The answer is the exit status.
fn tell_end<E: Sink>(end: Result<End, Fault>, err: &mut E) -> u8
    requires fault { IfErr end (λ fault. (fault ≡ Fault.Write) ⊎ (fault ≡ Fault.Memory)) }
    requires err { CanCount (E.failures err.old) }
    ensures status { result ≡ status_of end }
    ensures told { Says (E.failures err.old) (E.failures err.new) (E.contents err.old)
        (E.contents err.new) (told_of end) }
{
    match end {
        Ok(end) => end.status(),
        Err(Fault::Write) => {
            say(err, WRITE_FAILED.as_bytes());
            2
        }
        Err(fault) => tell_unread(fault, err),
    }
}
