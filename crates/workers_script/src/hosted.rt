//! A script's commands, served.

ghost use Rattle.std.specs.Prelude.{◌≡◌, ◌≤◌, IfOk, None, OnOk, length, map, replicate};
ghost use Rattle.std.specs.List.{range_with_len};
ghost use Rattle.model.specs.declared.limits.TheConstants.{MAX_THREADS};
ghost use Rattle.model.specs.History.{events_of};
ghost use Rattle.model.specs.Sound.{IsSound};
ghost use Rattle.model.specs.Typable.{IsTypable};
ghost use Rattle.workers_script.specs.Queued.{IsQueued};
ghost use Rattle.workers_script.specs.Served.{Accounts, AreStarted, command_name};
ghost use Rattle.workers_script.specs.Told.{Hosts, StandsAfter, Tells, all_told, new_core};

use crate::collecting::{none_told, tell_all};
use crate::queueing::{Queued, queue_all};
use crate::serving::{Done, serve_queued};
use crate::standing::standing_in;
use checked::Checked;
use driver_set::DriverSet;
use hostcore::Core;
use laws_runs::accepted_runs_keep_the_rules;
use model::event::{Event, Reply};
use model::history::Command;
use model::limits::MAX_HISTORY;
use model::memory::OutOfMemory;
use std::alloc::{AllocError, Global};
use std::sync::Wait;
use std::thread::Threads;
use verifier::Accepted;
use workers::{Ends, Gate};

/// What came of the commands of a script.
#[derive(Drop)]
pub struct Hosted {
    /// Of each command what is told of it: how the packet of its request topped out, or else the
    /// reply of its entry; nothing where it wasn't performed.
    pub told: Vec<Option<Reply>>,
    /// How many entries the history has.
    pub entries: usize,
    /// The ends of the workers that were started, of which there is at least one.
    pub ends: Ends,
    /// Where a thread still has frames: the reference machine, which has run the events of the
    /// history.
    pub standing: Option<Checked>,
    /// The core, which has the history.
    pub core: Core,
}

impl Hosted {
    /// The events of the history, in their order.
    ///
    /// # Errors
    ///
    /// When memory runs out.
    pub fn events(&self, alloc: Global) -> Result<Vec<Event>, AllocError>
        ensures { IfOk result (λ events. events.items ≡ events_of self.now.core.history) }
    {
        let history = self.core.history();
        let mut events = Vec::with_capacity(alloc, history.len())?;
        for entry in history {
            events.push(entry.event())?;
        }
        Ok(events)
    }
}

/// The commands of a script in a queue, and what is told of each before it is served: nothing.
struct Ready {
    queued: Queued,
    told: Vec<Option<Reply>>,
}

/// A core that served commands, and what is told of each.
#[derive(Drop)]
struct Told {
    core: Core,
    told: Vec<Option<Reply>>,
    ends: Ends,
}

/// Submits the commands of a script to a queue, closes it, and has it served over a core of an
/// accepted set by so many workers, 1 to 64, each with a thread of the core. The run of the events
/// of their history answers each of them as the history tells: that is proved, and nothing replays
/// them to find out. They are run again where a thread still has frames, to tell where it stands.
///
/// # Errors
///
/// When memory runs out, or no worker can be started.
pub fn serve_script<G: Gate + Sync, R: Threads + Wait + Sync>(
    rt: &R,
    alloc: Global,
    accepted: Accepted,
    workers: u8,
    commands: &[Command],
    gate: &G,
) -> Result<Hosted, OutOfMemory>
    requires some { 1 ≤ workers }
    requires few { workers ≤ MAX_THREADS }
    ensures { IfOk result (Hosts accepted workers commands.now) }
{
    accepted_runs_keep_the_rules();
    let set = set_of(alloc, &accepted)?;
    let core = core_of(alloc, accepted, workers)?;
    let told = serve_all(rt, alloc, core, workers, commands, gate)?;
    stand(alloc, set, told, workers)
}

/// Where threads stand after a script was served.
fn stand(alloc: Global, set: DriverSet, told: Told, workers: u8) -> Result<Hosted, OutOfMemory>
    requires some { 1 ≤ workers }
    requires few { workers ≤ MAX_THREADS }
    requires typable { IsTypable set }
    requires sound { IsSound set }
    requires set { told.core.set ≡ set }
    requires threads { told.core.threads ≡ workers }
    ensures { IfOk result (StandsAfter set workers told) }
{
    let Told {
        mut core,
        told,
        ends,
    } = told;
    let standing = standing_in(alloc, set, &mut core, workers)?;
    let entries = core.history().len();
    Ok(Hosted {
        told,
        entries,
        ends,
        standing,
        core,
    })
}

/// The set of an accepted one, to be kept beside it.
fn set_of(alloc: Global, accepted: &Accepted) -> Result<DriverSet, OutOfMemory>
    ensures set { IfOk result (λ set. set ≡ accepted.now) }
    ensures typable { OnOk result (IsTypable accepted.now) }
    ensures sound { OnOk result (IsSound accepted.now) }
{
    let set = accepted.set();
    let _drivers = set.drivers();
    set.copy(alloc)
}

/// A core of an accepted set, before its first entry.
fn core_of(alloc: Global, accepted: Accepted, threads: u8) -> Result<Core, OutOfMemory>
    requires some { 1 ≤ threads }
    requires few { threads ≤ MAX_THREADS }
    ensures { IfOk result (λ core. core ≡ new_core accepted threads) }
{
    match Core::new(alloc, accepted, threads, MAX_HISTORY) {
        Ok(core) => Ok(core),
        Err((_accepted, refused)) => Err(refused),
    }
}

/// Has the commands of a script served over a core that has no entry, and tells of each.
fn serve_all<G: Gate + Sync, R: Threads + Wait + Sync>(
    rt: &R,
    alloc: Global,
    core: Core,
    workers: u8,
    commands: &[Command],
    gate: &G,
) -> Result<Told, OutOfMemory>
    requires some { 1 ≤ workers }
    requires few { workers ≤ MAX_THREADS }
    requires new { core ≡ new_core core.set workers }
    ensures set { IfOk result (λ ended. ended.core.set ≡ core.set) }
    ensures threads { IfOk result (λ ended. ended.core.threads ≡ workers) }
    ensures log { IfOk result (λ ended. ended.core.log ≡ core.log) }
    ensures accounts { IfOk result
        (λ ended. Accounts workers commands.now ended.core.history) }
    ensures started { IfOk result (λ ended. AreStarted workers ended.core.history ended.ends) }
    ensures told { IfOk result (λ ended. ended.told.items
        ≡ all_told ended.core.history (length commands.now)) }
{
    let ready = make_ready(rt, alloc, workers, commands)?;
    started(serve_ready(rt, alloc, core, ready, commands, gate))
}

/// What is told, where a worker was started.
fn started(told: Told) -> Result<Told, OutOfMemory>
    ensures same { IfOk result (λ ended. ended ≡ told) }
    ensures some { OnOk result (1 ≤ told.ends.started) }
{
    if told.ends.started() == 0 {
        return Err(OutOfMemory);
    }
    Ok(told)
}

/// Puts the commands of a script into a queue, with memory for what will be told of them.
fn make_ready<R: Wait>(
    rt: &R,
    alloc: Global,
    workers: u8,
    commands: &[Command],
) -> Result<Ready, OutOfMemory>
    requires some { 1 ≤ workers }
    requires few { workers ≤ MAX_THREADS }
    ensures queued { IfOk result (λ ready. IsQueued workers commands.now ready.queued) }
    ensures told { IfOk result (λ ready. ready.told.items
        ≡ replicate (length commands.now) None) }
{
    let told = none_told(alloc, commands.len())?;
    let queued = queue_all(rt, alloc, workers, commands)?;
    Ok(Ready { queued, told })
}

/// Has the commands of a script served over a core that has no entry, and tells of each.
fn serve_ready<G: Gate + Sync, R: Threads + Wait + Sync>(
    rt: &R,
    alloc: Global,
    core: Core,
    ready: Ready,
    commands: &[Command],
    gate: &G,
) -> Told
    requires some { 1 ≤ core.threads }
    requires few { core.threads ≤ MAX_THREADS }
    requires new { core ≡ new_core core.set core.threads }
    requires queued { IsQueued core.threads commands.now ready.queued }
    requires told { ready.told.items ≡ replicate (length commands.now) None }
    ensures set { result.core.set ≡ core.set }
    ensures threads { result.core.threads ≡ core.threads }
    ensures log { result.core.log ≡ core.log }
    ensures accounts { Accounts core.threads commands.now result.core.history }
    ensures started { 1 ≤ result.ends.started
        → AreStarted core.threads result.core.history result.ends }
    ensures told { result.told.items ≡ all_told result.core.history (length commands.now) }
{
    let Ready { queued, told } = ready;
    let done = serve_queued(rt, alloc, core, queued, commands, gate);
    tell_done(done, told)
}

/// Tells of each command that had a ticket.
fn tell_done(done: Done, mut told: Vec<Option<Reply>>) -> Told
    requires tickets { done.tickets.items
        ≡ map command_name (range_with_len 0 (length done.tickets.items)) }
    requires few { length done.tickets.items ≤ length told.items }
    ensures core { result.core ≡ done.core }
    ensures ends { result.ends ≡ done.ends }
    ensures told { Tells done.core.history (length done.tickets.items) told.items
        result.told.items }
{
    let Done {
        core,
        ends,
        tickets,
    } = done;
    tell_all(&core, tickets, &mut told);
    Told { core, told, ends }
}
