//! What comes of a script of commands that workers serve, and their history as a schedule.

ghost use Rattle.std.specs.Prelude.{◌≡◌, ◌+◌, ◌≤◌, ◌⊎◌, [], ℕ, IfErr, IfOk, IfSome, List, false};
ghost use Rattle.drvhost_devices.specs.Device.{CanCount, Supply};
ghost use Rattle.drvhost_devices.specs.Ends.{Answers, HoldsRun};
ghost use Rattle.drvhost_devices.specs.Fault.{reads_failed, status_of, writes_failed};
ghost use Rattle.drvhost_devices.specs.Ready.{CanAnswer};
ghost use Rattle.answer_runs.specs.Hosted.{HasServed, IsHosted, IsNoted};
ghost use Rattle.answer_runs.specs.Hosting.{GoesTold};
ghost use Rattle.answer_runs.specs.Keeping.{IsHistory, IsKeptOf, IsKeptWith, IsServedWith};
ghost use Rattle.answer_runs.specs.Keeping.{Touches, WithText, listed_as, listed_end};
ghost use Rattle.answer_runs.specs.Keeping.{unlisted_line};
ghost use Rattle.answer_runs.specs.Readiness.{AreWarningsOf, SaysWarned};
ghost use Rattle.answer_runs.specs.Served.{served_as};
ghost use Rattle.model.specs.declared.history.Command.{Command};
ghost use Rattle.model.specs.declared.limits.TheConstants.{MAX_THREADS};
ghost use Rattle.model.specs.Set.{Set};
ghost use Rattle.workers_script.specs.Told.{Hosts};

use crate::host::{HostConfig, finish_page, serve_ready, tell_hosted, tell_refusal};
use crate::page::Page;
use crate::ready::{get_ready, warn};
use drvhost_devices::device::{Sink, Source};
use drvhost_devices::fault::{End, Fault, no_memory};
use drvhost_devices::transfer::write_bytes;
use drvhost_devices::verification::Verification;
use interleave_texts::appending::add;
use interleave_texts::listing::listing;
use std::alloc::{AllocError, Global};
use std::sync::Wait;
use std::thread::Threads;
use workers::Gate;
use workers_script::Hosted;

/// What a script is served with whose history is kept: memory besides.
#[derive(Drop)]
pub struct Keeping<'a, R, G> {
    pub alloc: Global,
    pub hosting: HostConfig<'a, R, G>,
}

/// Has the commands of a script served as [`host`](crate::host::host) does, and answers as it does.
/// What the workers did is written besides to a target: the events of their history, as a schedule
/// of as many threads as there are workers. Nothing is done with the target before all else was
/// written, nor where nothing is served. Where the schedule, read back, is another one, a line says
/// so in its place, and the status is 1.
pub fn host_keeping<
    S: Source,
    P: Source,
    G: Gate + Sync,
    O: Sink,
    W: Sink,
    E: Sink,
    R: Threads + Wait + Sync,
>(
    keeping: &Keeping<'_, R, G>,
    set: &mut S,
    script: &mut P,
    out: &mut O,
    target: &mut W,
    err: &mut E,
) -> u8
    requires some { 1 ≤ keeping.now.hosting.workers }
    requires few { keeping.now.hosting.workers ≤ MAX_THREADS }
    requires devices { CanAnswer O.Sink E.Sink (S.failures set.old) out.old err.old }
    requires script { CanCount (P.failures script.old) }
    requires target { CanCount (W.failures target.old) }
    ensures unread { (script.new ≡ script.old)
        ⊎ HoldsRun Verification.Required (S.supply set.old) }
    ensures answers { Answers
        (IsKeptOf keeping.now.hosting.workers (S.supply set.old) (P.supply script.old))
        (S.failures set.old + P.failures script.old) (S.failures set.new + P.failures script.new)
        (W.failures target.old + O.failures out.old) (W.failures target.new + O.failures out.new)
        (O.contents out.old) (O.contents out.new)
        (SaysWarned (AreWarningsOf (S.supply set.old) result)
        (E.failures err.old) (E.failures err.new) (E.contents err.old) (E.contents err.new))
        result }
    ensures touched { Touches (target.new ≡ target.old)
        (IsKeptWith keeping.now.hosting.workers (S.supply set.old) (P.supply script.old))
        (O.contents out.old) (O.contents out.new) (W.contents target.old) (W.contents target.new)
        result }
    ensures few { W.failures target.new ≤ W.failures target.old + 1 }
{
    let alloc = keeping.alloc;
    match Page::new(alloc) {
        Ok(mut page) => {
            let ready = get_ready(alloc, set, script, &mut page);
            let failures = err.failures();
            warn(&ready, err);
            let workers = keeping.hosting.workers;
            let served = serve_ready(alloc, ready, &keeping.hosting, &mut page);
            let end = keep_served(alloc, workers, served, &mut page, out, target);
            finish_page(end, &mut page, failures, err)
        }
        Err(AllocError) => no_memory(err),
    }
}

/// Writes the lines of what so many workers made of what was read, and the history.
fn keep_served<O: Sink, W: Sink>(
    alloc: Global,
    workers: u8,
    served: Result<Option<Hosted>, Fault>,
    page: &mut Page,
    out: &mut O,
    target: &mut W,
) -> Result<End, Fault>
    requires out { CanCount (O.failures out.old) }
    requires target { CanCount (W.failures target.old) }
    requires writes { writes_failed served ≡ 0 }
    requires empty { IfOk served (λ hosted. IfSome hosted (λ _. page.old.lines ≡ [])) }
    ensures goes { (set script : Supply) → IsHosted workers set script page.old served
        → GoesTold (IsKeptOf workers set script)
        page.new.words.items (O.contents out.old) (O.contents out.new) [] [] result }
    ensures touched { (set script : Supply) → IsHosted workers set script page.old served
        → Touches (target.new ≡ target.old) (IsKeptWith workers set script)
        (O.contents out.old) (O.contents out.new) (W.contents target.old) (W.contents target.new)
        (status_of result) }
    ensures served { status_of result ≡ 0 → HasServed served }
    ensures reads { reads_failed result ≡ reads_failed served }
    ensures writes { W.failures target.new + O.failures out.new
        ≡ W.failures target.old + O.failures out.old + writes_failed result }
    ensures few { W.failures target.new ≤ W.failures target.old + 1 }
{
    match served {
        Ok(Some(hosted)) => tell_kept(alloc, workers, &hosted, page, out, target),
        Ok(None) => tell_refusal(page, out),
        Err(fault) => Err(fault),
    }
}

/// Writes the lines of commands that so many workers served, and the history.
fn tell_kept<O: Sink, W: Sink>(
    alloc: Global,
    workers: u8,
    hosted: &Hosted,
    page: &mut Page,
    out: &mut O,
    target: &mut W,
) -> Result<End, Fault>
    requires out { CanCount (O.failures out.old) }
    requires target { CanCount (W.failures target.old) }
    requires empty { page.old.lines ≡ [] }
    ensures goes { (set : Set) (commands : List Command) → Hosts set workers commands hosted.now
        → IsNoted page.old hosted.now
        → GoesTold
        (λ answer. (text : List ℕ) × IsServedWith workers set commands text answer)
        page.new.words.items (O.contents out.old) (O.contents out.new) [] [] result }
    ensures touched { (set : Set) (commands : List Command) → Hosts set workers commands hosted.now
        → IsNoted page.old hosted.now
        → Touches (target.new ≡ target.old) (WithText (IsServedWith workers set commands))
        (O.contents out.old) (O.contents out.new) (W.contents target.old) (W.contents target.new)
        (status_of result) }
    ensures reads { reads_failed result ≡ 0 }
    ensures writes { W.failures target.new + O.failures out.new
        ≡ W.failures target.old + O.failures out.old + writes_failed result }
    ensures few { W.failures target.new ≤ W.failures target.old + 1 }
{
    let history = history_of(alloc, workers, hosted)?;
    put(hosted, &history, page, out, target)
}

/// A history as a text.
#[derive(Drop)]
struct History {
    text: Vec<u8>,
    /// Whether it is a schedule, and not the line that there is none.
    listed: bool,
}

/// The history of commands that so many workers served.
fn history_of(alloc: Global, workers: u8, hosted: &Hosted) -> Result<History, Fault>
    ensures history { IfOk result (λ history.
        IsHistory workers hosted.now.core.history history.listed history.text.items) }
    ensures fault { IfErr result (λ fault. fault ≡ Fault.Memory) }
{
    let events = hosted.events(alloc)?;
    match listing(alloc, workers, events.as_slice())? {
        Some(text) => Ok(History { text, listed: true }),
        None => Ok(unlisted(alloc)?),
    }
}

/// That there is none.
fn unlisted(alloc: Global) -> Result<History, AllocError>
    ensures line { IfOk result (λ history. history.text.items ≡ unlisted_line) }
    ensures listed { IfOk result (λ history. history.listed ≡ false) }
{
    let mut text = Vec::new(alloc);
    add(&mut text, b"; the history, read back, is another one\n")?;
    Ok(History {
        text,
        listed: false,
    })
}

/// Writes the lines of commands that were served, and then their history.
fn put<O: Sink, W: Sink>(
    hosted: &Hosted,
    history: &History,
    page: &mut Page,
    out: &mut O,
    target: &mut W,
) -> Result<End, Fault>
    requires out { CanCount (O.failures out.old) }
    requires target { CanCount (W.failures target.old) }
    requires empty { page.old.lines ≡ [] }
    ensures goes { GoesTold
        (λ answer. answer ≡ listed_as history.now.listed (served_as hosted.now.told.items
        hosted.now.entries page.old.ringed.items page.old.words.items))
        page.new.words.items (O.contents out.old) (O.contents out.new) [] [] result }
    ensures touched { Touches (target.new ≡ target.old)
        (WithText (λ text answer. (text ≡ history.now.text.items)
        × (answer ≡ listed_as history.now.listed (served_as hosted.now.told.items
        hosted.now.entries page.old.ringed.items page.old.words.items))))
        (O.contents out.old) (O.contents out.new) (W.contents target.old) (W.contents target.new)
        (status_of result) }
    ensures reads { reads_failed result ≡ 0 }
    ensures writes { W.failures target.new + O.failures out.new
        ≡ W.failures target.old + O.failures out.old + writes_failed result }
    ensures few { W.failures target.new ≤ W.failures target.old + 1 }
{
    let end = tell_hosted(hosted, page, out)?;
    write_bytes(history.text.as_slice(), target)?;
    Ok(end_with(history, end))
}

/// How the job ends that ended so before the history was written.
fn end_with(history: &History, end: End) -> End
    ensures { result ≡ listed_end history.now.listed end }
{
    if history.listed { end } else { End::Stopped }
}
