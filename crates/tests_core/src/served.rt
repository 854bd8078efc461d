//! A queue of commands that workers serve, and what came of it.

ghost use Rattle.std.specs.Prelude.{◌≡◌, ◌≤◌, None, length, replicate};
ghost use Rattle.intake.specs.declared.limits.TheConstants.{MAX_CAPACITY, MAX_SUBMITTERS};
ghost use Rattle.intake.specs.declared.limits.TheConstants.{MAX_TAKERS};
ghost use Rattle.intake.specs.Ends.{AreSubmittersOf, AreTakersOf};
ghost use Rattle.model.specs.declared.limits.TheConstants.{MAX_THREADS};

use arrayvec::ArrayVec;
use hostcore::Core;
use intake::{Intake, Submitter, Taker};
use model::history::Command;
use std::alloc::Global;
use std::process::Abort;
use std::sync::Wait;
use std::thread::Threads;
use workers::{Gate, Served, serve};

/// How many commands a queue has room for that is filled before it is served.
const ROOM: usize = 250;

/// What came of serving a queue.
#[derive(Drop)]
pub(crate) struct Account {
    /// How many entries the history has, and how many of them performed a command.
    pub(crate) entries: usize,
    pub(crate) performed: usize,
    pub(crate) counts: ArrayVec<u64, 64>,
    pub(crate) started: usize,
    pub(crate) full: bool,
}

impl Account {
    /// What came of it, by what came back. What was held is given up.
    pub(crate) fn of(served: Served) -> Account {
        let Served {
            core,
            takers: _,
            counts,
            mut held,
            started,
            ends: _,
            full,
        } = served;
        while let Some(taken) = held.pop() {
            let _command = taken.give_up();
        }
        held.destroy_empty();
        Account {
            entries: core.history().len(),
            performed: count_performed(&core),
            counts,
            started,
            full,
        }
    }

    /// Whether so many workers were started, performed so many commands, and met no full history.
    pub(crate) fn is_of(&self, workers: usize, commands: usize) -> bool {
        self.started == workers && self.performed == commands && !self.full
    }
}

/// How many entries of a history performed a command.
fn count_performed(core: &Core) -> usize {
    let mut performed: usize = 0;
    for entry in core.history() {
        if entry.name().is_some() {
            performed = performed.saturating_add(1);
        }
    }
    performed
}

/// A queue with ample memory, its submitters and its takers.
pub(crate) fn queue_of<R: Abort>(
    rt: &R,
    alloc: Global,
    capacity: usize,
    submitters: u32,
    takers: u32,
) -> (Intake, Vec<Submitter>, Vec<Taker>)
    requires capacity { (1 ≤ capacity) × (capacity ≤ MAX_CAPACITY) }
    requires submitters { (1 ≤ submitters) × (submitters ≤ MAX_SUBMITTERS) }
    requires takers { (1 ≤ takers) × (takers ≤ MAX_TAKERS) }
    ensures submitting { AreSubmittersOf result.0 result.1.items }
    ensures taking { AreTakersOf result.0 result.2.items }
    ensures count { length result.2.items ≡ takers }
{
    match Intake::new(alloc, capacity, submitters, takers) {
        Ok(made) => made,
        Err(_refused) => panic!(rt; "memory"),
    }
}

/// The last of the submitters.
pub(crate) fn last_submitter<R: Abort>(
    rt: &R,
    intake: &Intake,
    submitters: &mut Vec<Submitter>,
) -> Submitter
    requires all { AreSubmittersOf intake.now submitters.old.items }
    ensures all { AreSubmittersOf intake.now submitters.new.items }
    ensures queue { result.queue ≡ intake.now }
{
    match submitters.pop() {
        Some(last) => last,
        None => panic!(rt; "a submitter"),
    }
}

/// A submitter puts a command, once there is room for it. Its outcome is nobody's.
pub(crate) fn put<R: Wait + Abort>(
    rt: &R,
    core: &Core,
    intake: &Intake,
    submitter: &mut Submitter,
    command: Command,
)
    requires queue { submitter.old.queue ≡ intake.now }
    ensures queue { submitter.new.queue ≡ intake.now }
{
    for _turn in rt.forever() {
        if let Ok(ticket) = submitter.submit(rt, intake, command) {
            core.abandon(ticket);
            return;
        }
        assert!(rt; !intake.closed());
    }
    unreachable!()
}

/// An open queue with these commands, and its takers.
pub(crate) fn filled<R: Wait + Abort>(
    rt: &R,
    alloc: Global,
    core: &Core,
    takers: u32,
    commands: &[Command],
) -> (Intake, Vec<Taker>)
    requires takers { (1 ≤ takers) × (takers ≤ MAX_TAKERS) }
    ensures taking { AreTakersOf result.0 result.1.items }
    ensures count { length result.1.items ≡ takers }
{
    let (intake, mut submitters, takers) = queue_of(rt, alloc, ROOM, 1, takers);
    let mut submitter = last_submitter(rt, &intake, &mut submitters);
    for command in commands {
        put(rt, core, &intake, &mut submitter, *command);
    }
    (intake, takers)
}

/// Puts commands into a queue, closes it, and has workers serve it with an idle core.
pub(crate) fn serve_all<G: Gate + Sync, R: Threads + Wait + Abort + Sync>(
    rt: &R,
    alloc: Global,
    core: Core,
    workers: u8,
    commands: &[Command],
    gate: &G,
) -> Account
    requires some { 1 ≤ workers }
    requires few { workers ≤ MAX_THREADS }
    requires threads { core.threads ≡ workers }
    requires free { core.seats ≡ replicate core.threads None }
{
    let (intake, takers) = filled(rt, alloc, &core, workers as u32, commands);
    intake.close();
    Account::of(serve(rt, alloc, core, &intake, takers, gate))
}
