//! A queue with a script's commands, served.

ghost use Rattle.std.specs.Prelude.{◌≡◌, ◌≤◌, ◌<◌, ◌+◌, ℕ, List, None, length};
ghost use Rattle.intake.specs.Ends.{AreSubmittersOf, AreTakersOf, submitter_shares, taker_shares};
ghost use Rattle.intake.specs.Ends.{weigh_put, weigh_taken};
ghost use Rattle.intake.specs.Lists.{weigh};
ghost use Rattle.intake.specs.declared.limits.TheConstants.{SHARES};
ghost use Rattle.model.specs.declared.limits.TheConstants.{MAX_THREADS};
ghost use Rattle.model.specs.History.{NamedCommand, entry_named};
ghost use Rattle.workers_script.specs.Queued.{IsQueued};
ghost use Rattle.workers_script.specs.Served.{Accounts, AreStarted, command_name};
ghost use Rattle.workers_script.specs.Told.{new_core};

use crate::queueing::Queued;
use hostcore::{Core, Taken, Ticket};
use intake::{Closed, Intake, Submitter};
use model::history::Command;
use std::alloc::Global;
use std::sync::Wait;
use std::thread::Threads;
use workers::{Ends, Gate, Served, serve};

/// A core that served a queue, the ends of its workers, and the tickets of the commands that were
/// put into the queue.
pub(crate) struct Done {
    pub(crate) core: Core,
    pub(crate) ends: Ends,
    pub(crate) tickets: Vec<Ticket>,
}

/// A core whose workers have left the queue that they served, and their ends.
struct Settled {
    core: Core,
    ends: Ends,
}

/// Has a queue with the commands of a script served over a core that has no entry, by a worker for
/// each of its threads.
pub(crate) fn serve_queued<G: Gate + Sync, R: Threads + Wait + Sync>(
    rt: &R,
    alloc: Global,
    core: Core,
    queued: Queued,
    _commands: &[Command],
    gate: &G,
) -> Done
    requires some { 1 ≤ core.threads }
    requires few { core.threads ≤ MAX_THREADS }
    requires new { core ≡ new_core core.set core.threads }
    requires queued { IsQueued core.threads _commands.now queued }
    ensures set { result.core.set ≡ core.set }
    ensures threads { result.core.threads ≡ core.threads }
    ensures log { result.core.log ≡ core.log }
    ensures tickets { result.tickets ≡ queued.tickets }
    ensures accounts { Accounts core.threads _commands.now result.core.history }
    ensures started { 1 ≤ result.ends.started
        → AreStarted core.threads result.core.history result.ends }
    ensures unput { (k : ℕ) → length result.tickets.items ≤ k
        → entry_named result.core.history (command_name k) ≡ None }
{
    let Queued {
        intake,
        closed,
        submitters,
        takers,
        tickets,
    } = queued;
    let served = serve(rt, alloc, core, &intake, takers, gate);
    let Settled { core, ends } = settle(intake, closed, submitters, served);
    Done {
        core,
        ends,
        tickets,
    }
}

/// Those who served a queue that was closed leave it, and what they held is given up.
fn settle(intake: Intake, _closed: Closed, submitters: Vec<Submitter>, served: Served) -> Settled
    requires closed { _closed ≡ intake }
    requires some { 0 < length submitters.items }
    requires submitters { AreSubmittersOf intake submitters.items }
    requires takers { AreTakersOf intake served.takers.items }
    requires shares { submitter_shares submitters.items + taker_shares served.takers.items
        ≡ SHARES }
    ensures core { result.core ≡ served.core }
    ensures ends { result.ends ≡ served.ends }
    ensures among { (rest : List NamedCommand) × ((h : NamedCommand → ℕ)
        → weigh_put h submitters.items ≡ weigh_taken h served.takers.items + weigh h rest) }
{
    let Served {
        core,
        takers,
        counts: _,
        held,
        started: _,
        ends,
        full: _,
    } = served;
    give_up_all(held);
    let _left = intake.left(submitters, takers);
    Settled { core, ends }
}

/// Gives commands up.
fn give_up_all(mut commands: Vec<Taken>) {
    while let Some(taken) = commands.pop() {
        let _command = taken.give_up();
    }
    commands.destroy_empty();
}
