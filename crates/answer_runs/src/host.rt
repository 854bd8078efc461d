//! What comes of a script of commands that workers serve over one locked core.

ghost use Rattle.std.specs.Prelude.{◌≡◌, ◌≢◌, ◌≤◌, ◌+◌, ◌++◌, ◌⊎◌, [], ℕ, IfErr, IfOk, IfSome, Ok};
ghost use Rattle.std.specs.Prelude.{OnErr, OnOk, is_some};
ghost use Rattle.std.specs.List.{list_all};
ghost use Rattle.workers_script.specs.Told.{Hosts};
ghost use Rattle.model.specs.declared.limits.TheConstants.{MAX_THREADS};
ghost use Rattle.report.specs.Host.{agrees_line};
ghost use Rattle.report.specs.Lines.{HasRoom};
ghost use Rattle.drvhost_devices.specs.Device.{Adds, CanCount, Says, SaysBehind, Supply};
ghost use Rattle.drvhost_devices.specs.Device.{TakesBeginning};
ghost use Rattle.drvhost_devices.specs.Ends.{AnswersBy, HoldsRun};
ghost use Rattle.drvhost_devices.specs.Fault.{reads_failed, status_of, writes_failed};
ghost use Rattle.drvhost_devices.specs.Ready.{CanAnswer};
ghost use Rattle.answer_runs.specs.Hosted.{HasServed, IsHosted, IsNoted};
ghost use Rattle.answer_runs.specs.Hosting.{AreWorkers, GoesTold, IsBlank, told_behind};
ghost use Rattle.answer_runs.specs.Readiness.{AreWarningsOf, IsReady, IsServing, IsUnserved};
ghost use Rattle.answer_runs.specs.Readiness.{SaysWarned};
ghost use Rattle.answer_runs.specs.Served.{IsHostOf, IsUnhosted, are_served, command_line};
ghost use Rattle.answer_runs.specs.Served.{command_lines, served_as, served_end};

use crate::page::Page;
use crate::ready::{Ready, get_ready, warn};
use drvhost_devices::device::{Sink, Source};
use drvhost_devices::fault::{End, Fault, finish, no_memory};
use drvhost_devices::transfer::{make_room, write_lines};
use drvhost_devices::unopened::say_behind;
use drvhost_devices::verification::Verification;
use model::event::Reply;
use model::limits::MAX_HISTORY;
use model::memory::OutOfMemory;
use report::event_number::EventNumber;
use report::lines::Lines;
use std::alloc::{AllocError, Global};
use std::sync::Wait;
use std::thread::Threads;
use workers::Gate;
use workers_script::{Hosted, serve_script};

/// What a script is served with.
#[derive(Drop)]
pub struct HostConfig<'a, R, G> {
    /// The runtime that starts the workers.
    pub runtime: &'a R,
    /// How many workers there are: 1 to 64.
    pub workers: u8,
    /// The gate that a worker asks before each turn.
    pub gate: &'a G,
}

/// Has the commands of a script served by so many workers, 1 to 64, over one locked core of an
/// accepted driver set, and writes a line for each command: how its request's packet topped out, or
/// else the reply to it, or that it was left. The last line says of how many entries the history
/// is, each of which has the reply that the run of its events makes there. Before each turn a
/// worker asks the gate. Before the workers start, a line for each driver that takes its locks in a
/// cycle stands on the error writer. Where threads wait for each other in a ring, their workers
/// end; a line for each of these threads then stands there too. The answer is the exit status: 0
/// where all went well, 1 where threads wait in a ring, where a command was left though the history
/// had room, or where the set is refused, 2 where an input is faulty or a read or a write failed, 3
/// where memory ran out. Faults are told on the error writer: those of the set before a refusal,
/// and a refusal before those of the script, which is read for an accepted set alone.
pub fn host<S: Source, P: Source, G: Gate + Sync, O: Sink, E: Sink, R: Threads + Wait + Sync>(
    alloc: Global,
    set: &mut S,
    script: &mut P,
    hosting: &HostConfig<'_, R, G>,
    out: &mut O,
    err: &mut E,
) -> u8
    requires some { 1 ≤ hosting.now.workers }
    requires few { hosting.now.workers ≤ MAX_THREADS }
    requires devices { CanAnswer O.Sink E.Sink (S.failures set.old) out.old err.old }
    requires script { CanCount (P.failures script.old) }
    ensures unread { (script.new ≡ script.old)
        ⊎ HoldsRun Verification.Required (S.supply set.old) }
    ensures answers { AnswersBy O.Sink E.Sink
        (SaysWarned (AreWarningsOf (S.supply set.old) result))
        (IsHostOf hosting.now.workers (S.supply set.old) (P.supply script.old))
        (S.failures set.old + P.failures script.old) (S.failures set.new + P.failures script.new)
        out.old out.new err.old err.new result }
{
    match Page::new(alloc) {
        Ok(mut page) => {
            let ready = get_ready(alloc, set, script, &mut page);
            let failures = err.failures();
            warn(&ready, err);
            let served = serve_ready(alloc, ready, hosting, &mut page);
            let end = tell_served(served, &mut page, out);
            finish_page(end, &mut page, failures, err)
        }
        Err(AllocError) => no_memory(err),
    }
}

/// Has what is ready served, and notes what is told of the threads that wait in a ring then.
pub(crate) fn serve_ready<G: Gate + Sync, R: Threads + Wait + Sync>(
    alloc: Global,
    ready: Result<Option<Ready>, Fault>,
    hosting: &HostConfig<'_, R, G>,
    page: &mut Page,
) -> Result<Option<Hosted>, Fault>
    requires workers { AreWorkers hosting.now.workers }
    requires writes { writes_failed ready ≡ 0 }
    requires blank { IfOk ready (λ ready. IfSome ready (λ _. IsBlank page.old)) }
    ensures hosted { (set script : Supply) → IsReady set script page.old ready
        → IsHosted hosting.now.workers set script page.new result }
    ensures empty { IfOk result (λ hosted. IfSome hosted (λ _. page.new.lines ≡ [])) }
    ensures served { HasServed result → IsServing ready }
    ensures reads { reads_failed result ≡ reads_failed ready }
    ensures writes { writes_failed result ≡ 0 }
{
    match ready {
        Ok(Some(ready)) => Ok(Some(serve(alloc, ready, hosting, page)?)),
        Ok(None) => Ok(None),
        Err(fault) => Err(fault),
    }
}

/// Has a script served over an accepted set, and notes what is told of the threads that wait in a
/// ring then.
fn serve<G: Gate + Sync, R: Threads + Wait + Sync>(
    alloc: Global,
    ready: Ready,
    hosting: &HostConfig<'_, R, G>,
    page: &mut Page,
) -> Result<Hosted, Fault>
    requires workers { AreWorkers hosting.now.workers }
    requires blank { IsBlank page.old }
    ensures hosts { IfOk result
        (Hosts ready.accepted hosting.now.workers ready.commands.items) }
    ensures noted { IfOk result (IsNoted page.new) }
    ensures lines { page.new.lines ≡ [] }
    ensures fault { IfErr result (λ fault. fault ≡ Fault.Memory) }
{
    let Ready {
        accepted,
        commands,
        warnings: _,
    } = ready;
    let HostConfig {
        runtime,
        workers,
        gate,
    } = *hosting;
    match serve_script(runtime, alloc, accepted, workers, commands.as_slice(), gate) {
        Ok(hosted) => {
            page.note_standing(alloc, &hosted.standing)?;
            Ok(hosted)
        }
        Err(OutOfMemory) => Err(Fault::Memory),
    }
}

/// Writes the lines of what came of what was read.
fn tell_served<O: Sink>(
    served: Result<Option<Hosted>, Fault>,
    page: &mut Page,
    out: &mut O,
) -> Result<End, Fault>
    requires out { CanCount (O.failures out.old) }
    requires writes { writes_failed served ≡ 0 }
    requires empty { IfOk served (λ hosted. IfSome hosted (λ _. page.old.lines ≡ [])) }
    ensures goes { (workers : ℕ) (set script : Supply)
        → IsHosted workers set script page.old served
        → GoesTold (IsHostOf workers set script)
        page.new.words.items (O.contents out.old) (O.contents out.new) [] [] result }
    ensures served { status_of result ≡ 0 → HasServed served }
    ensures reads { reads_failed result ≡ reads_failed served }
    ensures writes { O.failures out.new ≡ O.failures out.old + writes_failed result }
{
    match served {
        Ok(Some(hosted)) => tell_hosted(&hosted, page, out),
        Ok(None) => tell_refusal(page, out),
        Err(fault) => Err(fault),
    }
}

/// Writes the line of a refusal, which has gathered.
pub(crate) fn tell_refusal<O: Sink>(page: &mut Page, out: &mut O) -> Result<End, Fault>
    requires { CanCount (O.failures out.old) }
    ensures goes { (set script : Supply) → IsUnserved set script page.old.lines (Ok End.Stopped)
        → page.old.words.items ≡ []
        → GoesTold (IsUnhosted set script)
        page.new.words.items (O.contents out.old) (O.contents out.new) [] [] result }
    ensures status { status_of result ≢ 0 }
    ensures reads { reads_failed result ≡ 0 }
    ensures writes { O.failures out.new ≡ O.failures out.old + writes_failed result }
{
    write_lines(&mut page.lines, out)?;
    Ok(End::Stopped)
}

/// Ends the job, as [`finish`] does, behind what the error writer was told since it had failed so
/// often. Where the job met no fault, the words on a ring are told.
pub(crate) fn finish_page<E: Sink>(
    end: Result<End, Fault>,
    page: &mut Page,
    failures: u64,
    err: &mut E,
) -> u8
    requires { CanCount failures }
    ensures status { result ≡ status_of end }
    ensures told { SaysBehind failures (E.failures err.old) (E.failures err.new)
        (E.contents err.old) (E.contents err.new) (told_behind page.old.words.items end) }
{
    match end {
        Ok(end) => {
            say_behind(page.words.as_slice(), failures, err);
            end.status()
        }
        Err(fault) if err.failures() == failures => finish(Err(fault), &mut page.lines, err),
        Err(fault) => fault.status(),
    }
}

/// Writes the lines of commands that were served, and of their history. The words on a ring are
/// there before.
pub(crate) fn tell_hosted<O: Sink>(
    hosted: &Hosted,
    page: &mut Page,
    out: &mut O,
) -> Result<End, Fault>
    requires out { CanCount (O.failures out.old) }
    requires empty { page.old.lines ≡ [] }
    ensures goes { GoesTold
        (λ answer. answer ≡ served_as hosted.now.told.items hosted.now.entries
        page.old.ringed.items page.old.words.items)
        page.new.words.items (O.contents out.old) (O.contents out.new) [] [] result }
    ensures fault { IfErr result (λ fault. fault ≡ Fault.Write) }
    ensures reads { reads_failed result ≡ 0 }
    ensures writes { O.failures out.new ≡ O.failures out.old + writes_failed result }
{
    tell_commands(hosted.told.as_slice(), &mut page.lines, out)?;
    make_room(&mut page.lines, out)?;
    let end = tell_history(hosted, page);
    write_lines(&mut page.lines, out)?;
    Ok(end)
}

/// Adds a line for each command.
fn tell_commands<O: Sink>(
    commands: &[Option<Reply>],
    lines: &mut Lines,
    out: &mut O,
) -> Result<(), Fault>
    requires out { CanCount (O.failures out.old) }
    ensures added { OnOk result (Adds (O.contents out.old) (O.contents out.new) lines.old lines.new
        (command_lines 0 commands.now)) }
    ensures broken { OnErr result (TakesBeginning (O.contents out.old) (O.contents out.new)
        (lines.old ++ command_lines 0 commands.now)) }
    ensures fault { IfErr result (λ fault. fault ≡ Fault.Write) }
    ensures writes { O.failures out.new ≡ O.failures out.old + writes_failed result }
{
    let mut number = EventNumber::first();
    for told in commands {
        make_room(lines, out)?;
        tell_command(&mut number, told, lines);
        number.advance();
    }
    Ok(())
}

/// Adds the line of the command of a number.
fn tell_command(number: &mut EventNumber, told: &Option<Reply>, lines: &mut Lines)
    requires { HasRoom lines.old }
    ensures line { lines.new ≡ lines.old ++ command_line number.old told.now }
    ensures number { number.new ≡ number.old }
{
    match told {
        Some(reply) => lines.reply(number, reply),
        None => lines.left(number),
    }
}

/// Adds the line of the history of commands that were served, each reply of which is the run's, and
/// answers how the job ends.
fn tell_history(hosted: &Hosted, page: &mut Page) -> End
    requires { HasRoom page.old.lines }
    ensures end { result ≡ served_end hosted.now.told.items hosted.now.entries
        page.old.ringed.items }
    ensures line { page.new.lines ≡ page.old.lines ++ agrees_line hosted.now.entries }
    ensures words { page.new.words.items ≡ page.old.words.items }
{
    page.lines.agrees(hosted.entries);
    end_of(hosted, page.ringed.as_slice())
}

/// How a job ends that has served commands, after which these threads wait in a ring: not well
/// where there are any, or where a command was left though the history had room.
pub fn end_of(hosted: &Hosted, ringed: &[u8]) -> End
    ensures { result ≡ served_end hosted.now.told.items hosted.now.entries ringed.now }
{
    if ringed.is_empty() && are_served(hosted.told.as_slice(), hosted.entries) {
        End::Complete
    } else {
        End::Stopped
    }
}

/// Whether each command was performed, or the history has as many entries as it may have.
fn are_served(commands: &[Option<Reply>], entries: usize) -> bool
    ensures { result ≡ are_served commands.now entries }
{
    all_performed(commands) || entries == MAX_HISTORY
}

/// Whether each command was performed.
fn all_performed(commands: &[Option<Reply>]) -> bool
    ensures { result ≡ list_all is_some commands.now }
{
    commands.iter().all(|told| told.is_some())
}
