//! A script's commands in a queue of their own.

ghost use Rattle.std.specs.Prelude.{◌≡◌, ◌≤◌, ◌<◌, ℕ, [], IfOk, length, map, take};
ghost use Rattle.std.specs.List.{range_with_len};
ghost use Rattle.std.specs.Vec.{vec_capacity};
ghost use Rattle.intake.specs.declared.limits.TheConstants.{MAX_CAPACITY};
ghost use Rattle.intake.specs.Ends.{AreNewSubmitters, AreSubmittersOf, submitter_shares};
ghost use Rattle.intake.specs.Ends.{weigh_put};
ghost use Rattle.intake.specs.Lists.{weigh};
ghost use Rattle.model.specs.declared.limits.TheConstants.{MAX_THREADS};
ghost use Rattle.model.specs.History.{NamedCommand};
ghost use Rattle.workers_script.specs.Queued.{IsQueued};
ghost use Rattle.workers_script.specs.Served.{command_name, named_from};

use crate::submitting::submit_all;
use hostcore::Ticket;
use intake::limits::MAX_CAPACITY;
use intake::{Closed, Intake, Submitter, Taker};
use model::history::Command;
use model::memory::OutOfMemory;
use std::alloc::Global;
use std::sync::Wait;

/// A queue with the commands of a script, which was closed and hasn't been served yet.
pub(crate) struct Queued {
    pub(crate) intake: Intake,
    pub(crate) closed: Closed,
    pub(crate) submitters: Vec<Submitter>,
    pub(crate) takers: Vec<Taker>,
    /// The tickets of the commands that were put: of the first ones.
    pub(crate) tickets: Vec<Ticket>,
}

/// Submits the commands of a script to a queue for so many workers, and closes it.
pub(crate) fn queue_all<R: Wait>(
    rt: &R,
    alloc: Global,
    workers: u8,
    commands: &[Command],
) -> Result<Queued, OutOfMemory>
    requires some { 1 ≤ workers }
    requires few { workers ≤ MAX_THREADS }
    ensures { IfOk result (IsQueued workers commands.now) }
{
    let room = room_for(commands.len());
    let (intake, mut submitters, takers) = Intake::new(alloc, room, 1, workers as u32)?;
    let Ok(mut tickets) = Vec::with_capacity(alloc, commands.len()) else {
        return Err(OutOfMemory);
    };
    let closed = fill(rt, &intake, &mut submitters, commands, &mut tickets);
    Ok(Queued {
        intake,
        closed,
        submitters,
        takers,
        tickets,
    })
}

/// Submits the commands of a script to a queue that has one submitter, adds a ticket for each that
/// was put, and closes the queue.
fn fill<R: Wait>(
    rt: &R,
    intake: &Intake,
    submitters: &mut Vec<Submitter>,
    commands: &[Command],
    tickets: &mut Vec<Ticket>,
) -> Closed
    requires new { AreNewSubmitters intake.now 1 submitters.old.items }
    requires empty { tickets.old.items ≡ [] }
    requires room { length commands.now ≤ vec_capacity tickets.old }
    ensures closed { result ≡ intake.now }
    ensures some { 0 < length submitters.new.items }
    ensures submitters { AreSubmittersOf intake.now submitters.new.items }
    ensures shares { submitter_shares submitters.new.items
        ≡ submitter_shares submitters.old.items }
    ensures few { length tickets.new.items ≤ length commands.now }
    ensures put { (h : NamedCommand → ℕ) → weigh_put h submitters.new.items
        ≡ weigh h (named_from 0 (take (length tickets.new.items) commands.now)) }
    ensures tickets { tickets.new.items
        ≡ map command_name (range_with_len 0 (length tickets.new.items)) }
{
    let _back = submit_all(rt, intake, &mut submitters[0], commands, tickets);
    intake.close()
}

/// Room for so many commands in a queue, as far as one can have it. Each place is written when the
/// queue is made, so what isn't needed isn't asked for.
fn room_for(commands: usize) -> usize
    ensures some { 1 ≤ result }
    ensures few { result ≤ MAX_CAPACITY }
    ensures all { 1 ≤ commands → commands ≤ MAX_CAPACITY → result ≡ commands }
{
    commands.max(1).min(MAX_CAPACITY)
}
