//! What comes of a script of commands that workers serve, as lines of JSON.

ghost use Rattle.std.specs.Prelude.{◌≡◌, ◌+◌, ◌++◌, ◌⊎◌, IfErr, IfOk, OnOk};
ghost use Rattle.drvhost_devices.specs.Device.{CanCount, Supply};
ghost use Rattle.drvhost_devices.specs.Ends.{AnswersOver, HoldsRun};
ghost use Rattle.drvhost_devices.specs.Fault.{reads_failed};
ghost use Rattle.drvhost_devices.specs.Ready.{CanAnswer};
ghost use Rattle.answer.specs.Run.{IsChosenAs, IsSetToRun, set_chosen};
ghost use Rattle.answer.specs.Told.{IsToldOfFile};
ghost use Rattle.answer_runs.specs.Hosting.{AreWorkers};
ghost use Rattle.answer_runs.specs.Served.{rings_in};
ghost use Rattle.drvhost_told.specs.Served.{IsHostJson, IsHostJsonOf, IsServedInJson};
ghost use Rattle.drvhost_told.specs.Served.{IsServedJsonOf, ReadsCommands, command_objects};
ghost use Rattle.drvhost_told.specs.Served.{served_objects};

use answer::as_json::{Json, told_fault};
use answer::as_text::ended;
use answer::deliver::{tell_unread, write_answer};
use answer::run::{Begun, Chosen, ToRun};
use answer_runs::host::{HostConfig, end_of};
use checked::Checked;
use drvhost_devices::device::{Sink, Source};
use drvhost_devices::fault::Fault;
use drvhost_devices::told::Told;
use drvhost_devices::transfer::read_whole;
use drvhost_devices::verification::Verification;
use interleave::schedule::{ScheduleFault, ScheduleKind};
use interleave_texts::script_parse::parse_script;
use model::event::Reply;
use model::history::Command;
use model::memory::OutOfMemory;
use report_json::fault::InputFault;
use report_json::json_lines::JsonLines;
use report_json::served::{ServedCommand, ServedHistory};
use std::alloc::{AllocError, Global};
use std::mem::drop;
use std::sync::Wait;
use std::thread::Threads;
use tell_audit::findings::ringed_threads;
use verifier::Accepted;
use workers::Gate;
use workers_script::{Hosted, serve_script};

/// A script that is to be served: the names of its files, and with what it is served.
#[derive(Drop)]
pub struct HostOptions<'a, R, G> {
    pub set: &'a str,
    pub script: &'a str,
    pub hosting: HostConfig<'a, R, G>,
}

/// Has the commands of a script served as [`host`](answer_runs::host::host) does, and writes an
/// object for each: what its line in `host` tells of it; and one for their history, of how many
/// entries it is, with the threads that wait in a ring after it. Of locks that are taken in a cycle
/// nothing is told. Faults and a refusal are written as lines too: those of the set before a
/// refusal, and a refusal before those of the script, which is read for an accepted set alone. The
/// answer is the exit status of `host`. That a read or a write failed or memory ran out is told on
/// the error writer. Nothing is written before the whole text stands in memory.
pub fn host_json<S: Source, P: Source, G: Gate + Sync, O: Sink, E: Sink, R: Threads + Wait + Sync>(
    alloc: Global,
    asked: &HostOptions<'_, R, G>,
    set: &mut S,
    script: &mut P,
    out: &mut O,
    err: &mut E,
) -> u8
    requires workers { AreWorkers asked.now.hosting.workers }
    requires devices { CanAnswer O.Sink E.Sink (S.failures set.old) out.old err.old }
    requires script { CanCount (P.failures script.old) }
    ensures unread { (script.new ≡ script.old)
        ⊎ HoldsRun Verification.Required (S.supply set.old) }
    ensures answers { AnswersOver O.Sink E.Sink
        (IsHostJsonOf asked.now.hosting.workers asked.now.set.now asked.now.script.now
        (S.supply set.old) (P.supply script.old))
        (S.failures set.old + P.failures script.old) (S.failures set.new + P.failures script.new)
        out.old out.new err.old err.new result }
{
    match served(alloc, asked, set, script) {
        Ok(told) => write_answer(Ok(told), out, err),
        Err(fault) => tell_unread(fault, err),
    }
}

/// The job of serving a script on a set.
#[derive(Clone, Copy)]
struct Serving;

/// The answer for what the sources have.
fn served<S: Source, P: Source, G: Gate + Sync, R: Threads + Wait + Sync>(
    alloc: Global,
    asked: &HostOptions<'_, R, G>,
    set: &mut S,
    script: &mut P,
) -> Result<Told, Fault>
    requires workers { AreWorkers asked.now.hosting.workers }
    requires set { CanCount (S.failures set.old) }
    requires script { CanCount (P.failures script.old) }
    ensures unread { (script.new ≡ script.old)
        ⊎ HoldsRun Verification.Required (S.supply set.old) }
    ensures told { IfOk result
        (IsHostJsonOf asked.now.hosting.workers asked.now.set.now asked.now.script.now
        (S.supply set.old) (P.supply script.old)) }
    ensures fault { IfErr result (λ fault. (fault ≡ Fault.Read) ⊎ (fault ≡ Fault.Memory)) }
    ensures reads { S.failures set.new + P.failures script.new
        ≡ S.failures set.old + P.failures script.old + reads_failed result }
{
    let bytes = read_whole(alloc, set)?;
    served_for(alloc, asked, bytes.as_slice(), script)
}

/// The answer where the file of the set has these bytes.
fn served_for<P: Source, G: Gate + Sync, R: Threads + Wait + Sync>(
    alloc: Global,
    asked: &HostOptions<'_, R, G>,
    bytes: &[u8],
    script: &mut P,
) -> Result<Told, Fault>
    requires workers { AreWorkers asked.now.hosting.workers }
    requires script { CanCount (P.failures script.old) }
    ensures unread { (script.new ≡ script.old) ⊎ IsSetToRun Verification.Required bytes.now }
    ensures told { IfOk result (IsToldOfFile
        (λ _. IsHostJson asked.now.hosting.workers asked.now.set.now asked.now.script.now
        (P.supply script.old)) asked.now.set.now bytes.now) }
    ensures fault { IfErr result (λ fault. (fault ≡ Fault.Read) ⊎ (fault ≡ Fault.Memory)) }
    ensures reads { P.failures script.new ≡ P.failures script.old + reads_failed result }
{
    let run = ToRun {
        job: Serving,
        form: Json,
        verification: Verification::Required,
        set: asked.set,
        input: asked.script,
    };
    match run.begin(alloc, bytes)? {
        Begun::Runs(chosen) => serve_chosen(alloc, asked, chosen, script),
        Begun::Kept(told) => Ok(told),
    }
}

/// Has the script served that a source has over a set, which is accepted.
fn serve_chosen<P: Source, R: Threads + Wait + Sync, G: Gate + Sync>(
    alloc: Global,
    asked: &HostOptions<'_, R, G>,
    chosen: Chosen,
    script: &mut P,
) -> Result<Told, Fault>
    requires workers { AreWorkers asked.now.hosting.workers }
    requires script { CanCount (P.failures script.old) }
    requires accepted { IsChosenAs Verification.Required chosen }
    ensures told { IfOk result (IsServedJsonOf asked.now.hosting.workers asked.now.script.now
        (P.supply script.old) (set_chosen chosen)) }
    ensures fault { IfErr result (λ fault. (fault ≡ Fault.Read) ⊎ (fault ≡ Fault.Memory)) }
    ensures reads { P.failures script.new ≡ P.failures script.old + reads_failed result }
{
    match chosen {
        Chosen::Accepted(accepted) => serve_source(alloc, asked, accepted, script),
        Chosen::Any(_set) => unreachable!(),
    }
}

/// Has it served over an accepted set.
fn serve_source<P: Source, R: Threads + Wait + Sync, G: Gate + Sync>(
    alloc: Global,
    asked: &HostOptions<'_, R, G>,
    accepted: Accepted,
    script: &mut P,
) -> Result<Told, Fault>
    requires workers { AreWorkers asked.now.hosting.workers }
    requires script { CanCount (P.failures script.old) }
    ensures told { IfOk result (IsServedJsonOf asked.now.hosting.workers asked.now.script.now
        (P.supply script.old) accepted) }
    ensures fault { IfErr result (λ fault. (fault ≡ Fault.Read) ⊎ (fault ≡ Fault.Memory)) }
    ensures reads { P.failures script.new ≡ P.failures script.old + reads_failed result }
{
    let read = read_script(alloc, script)?;
    Ok(serve_read(alloc, asked, accepted, read)?)
}

/// Has what was read of a script served over an accepted set, or tells its fault.
fn serve_read<R: Threads + Wait + Sync, G: Gate + Sync>(
    alloc: Global,
    asked: &HostOptions<'_, R, G>,
    accepted: Accepted,
    read: Result<Vec<Command>, ScheduleFault>,
) -> Result<Told, AllocError>
    requires { AreWorkers asked.now.hosting.workers }
    ensures { IfOk result (λ answer. (script : Supply) → ReadsCommands script read
        → IsServedJsonOf asked.now.hosting.workers asked.now.script.now script accepted answer) }
{
    match read {
        Ok(commands) => serve(alloc, &asked.hosting, accepted, commands.as_slice()),
        Err(fault) => {
            drop(accepted);
            told_fault(alloc, asked.script, InputFault::Script(fault))
        }
    }
}

/// Has commands served over an accepted set.
fn serve<R: Threads + Wait + Sync, G: Gate + Sync>(
    alloc: Global,
    hosting: &HostConfig<'_, R, G>,
    accepted: Accepted,
    commands: &[Command],
) -> Result<Told, AllocError>
    requires { AreWorkers hosting.now.workers }
    ensures { IfOk result (IsServedInJson hosting.now.workers commands.now accepted) }
{
    let HostConfig {
        runtime,
        workers,
        gate,
    } = *hosting;
    match serve_script(runtime, alloc, accepted, workers, commands, gate) {
        Ok(hosted) => tell_served(alloc, hosted),
        Err(OutOfMemory) => Err(AllocError),
    }
}

/// The lines of commands that were served, and of their history. What held them ends.
fn tell_served(alloc: Global, hosted: Hosted) -> Result<Told, AllocError>
    ensures { IfOk result (λ answer. answer
        ≡ served_objects hosted.told.items hosted.entries (rings_in hosted.standing)) }
{
    let told = tell_hosted(alloc, &hosted);
    drop(hosted);
    told
}

/// The commands that the text of a source lists, or its fault.
fn read_script<P: Source>(
    alloc: Global,
    source: &mut P,
) -> Result<Result<Vec<Command>, ScheduleFault>, Fault>
    requires { CanCount (P.failures source.old) }
    ensures script { IfOk result (ReadsCommands (P.supply source.old)) }
    ensures fault { IfErr result (λ fault. (fault ≡ Fault.Read) ⊎ (fault ≡ Fault.Memory)) }
    ensures reads { P.failures source.new ≡ P.failures source.old + reads_failed result }
{
    let text = read_whole(alloc, source)?;
    match parse_script(alloc, text.as_slice()) {
        Ok(commands) => Ok(Ok(commands)),
        Err(fault) => match fault.kind {
            ScheduleKind::Memory => Err(Fault::Memory),
            _ => Ok(Err(fault)),
        },
    }
}

/// The lines of commands that were served, and of their history.
fn tell_hosted(alloc: Global, hosted: &Hosted) -> Result<Told, AllocError>
    ensures { IfOk result (λ answer. answer ≡ served_objects hosted.now.told.items
        hosted.now.entries (rings_in hosted.now.standing)) }
{
    let ringed = ringed_in(alloc, &hosted.standing)?;
    let mut lines = JsonLines::new(alloc);
    tell_commands(hosted.told.as_slice(), &mut lines)?;
    lines.add(&ServedHistory {
        entries: hosted.entries as u64,
        ringed: ringed.as_slice(),
    })?;
    Ok(ended(alloc, end_of(hosted, ringed.as_slice()), lines.into_bytes()))
}

/// The threads that wait in a ring in what stands after a history.
fn ringed_in(alloc: Global, standing: &Option<Checked>) -> Result<Vec<u8>, AllocError>
    ensures { IfOk result (λ ringed. ringed.items ≡ rings_in standing.now) }
{
    match standing {
        Some(machine) => ringed_threads(alloc, machine),
        None => Ok(Vec::new(alloc)),
    }
}

/// Adds a line for each command, with what is told of it.
fn tell_commands(commands: &[Option<Reply>], lines: &mut JsonLines) -> Result<(), AllocError>
    ensures { OnOk result (lines.new ≡ lines.old ++ command_objects 0 commands.now) }
{
    let mut number = 0;
    for told in commands {
        lines.add(&ServedCommand {
            number,
            told: *told,
        })?;
        number += 1;
    }
    Ok(())
}
