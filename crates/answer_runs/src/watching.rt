//! Runs that are observed, event by event.

ghost use Rattle.std.specs.Prelude.{ℕ, ◌≡◌, ◌≤◌, [], List, IfErr, IfOk, replicate};
ghost use Rattle.interleave.specs.Listing.{IsWithinLimits};
ghost use Rattle.drvhost_devices.specs.declared.fault.Fault.{Fault};
ghost use Rattle.model.specs.declared.event.Event.{Event};
ghost use Rattle.model.specs.Set.{Set};
ghost use Rattle.answer_runs.specs.Watching.{BreaksOff, CanTell, Observes, ShowsOf, Takes};
ghost use Rattle.answer_runs.specs.Watching.{TellsOn};

use crate::follow::{next_run, next_single, rest_of};
use crate::running::Machine;
use drvhost_devices::fault::{End, Fault};
use interleave::read::Repeated;
use interleave::schedule::Schedule;
use model::event::Event;

/// What an observer has taken of an event that is to happen several times in a row.
#[derive(Clone, Copy)]
pub struct Taken {
    /// How often it has happened.
    pub count: usize,
    /// Whether the run ended with it.
    pub ended: bool,
}

/// Something that has a machine run the events that come next, and tells of them.
pub trait Observer<M: Machine> {
    // From that state to this one it told the run of these events.
    ghost tells: { Self → Self → Set → ℕ → List Event → Type 0 };

    // From that state on it told a beginning of the run of these events, up to a fault.
    ghost breaks: { Self → Self → Fault → Set → ℕ → List Event → Type 0 };

    /// Has a machine run an event at least once and at most so many times, up to a bug check or a
    /// wrong operand, and tells of it.
    fn watch(&mut self, machine: &mut M, event: &Event, count: usize) -> Result<Taken, Fault>
        requires some { 1 ≤ count }
        requires fits { CanTell M.set_of M.shows tells machine.old self.old count }
        ensures some { IfOk result (λ taken. 1 ≤ taken.count) }
        ensures few { IfOk result (λ taken. taken.count ≤ count) }
        ensures takes { IfOk result (λ taken. Takes M.set_of M.shows machine.old event.now
            machine.new taken.count taken.ended) }
        ensures tells { IfOk result (λ taken. TellsOn M.set_of M.shows tells tells machine.old
            self.old self.new (replicate taken.count event.now)) }
        ensures breaks { IfErr result (λ fault. BreaksOff M.set_of M.shows tells
            (λ start now. breaks start now fault) machine.old event.now self.old self.new count) };
}

/// Has an observer tell the run of a schedule, up to a bug check or a wrong operand.
#[inline(always)]
pub fn observe<M: Machine, W: Observer<M>>(
    machine: &mut M,
    schedule: &Schedule,
    observer: &mut W,
) -> Result<End, Fault>
    requires begun { M.shows machine.old schedule.now.threads [] }
    requires limits { IsWithinLimits schedule.now }
    requires fresh { W.tells observer.old observer.old (M.set_of machine.old) schedule.now.threads
        [] }
    ensures { Observes (ShowsOf M.set_of M.shows machine.new (M.set_of machine.old))
        (W.tells observer.old observer.new (M.set_of machine.old))
        (λ fault. W.breaks observer.old observer.new fault (M.set_of machine.old))
        (M.set_of machine.old) schedule.now.threads schedule.now.events result }
{
    let mut upcoming = schedule.events.upcoming();
    let mut rest = None;
    loop {
        if let Some(event) = next_single(&rest, &mut upcoming) {
            let taken = observer.watch(machine, &event, 1)?;
            if taken.ended {
                return Ok(End::Stopped);
            }
            continue;
        }
        let Some(Repeated { event, count }) = next_run(rest, &mut upcoming) else {
            return Ok(End::Complete);
        };
        let taken = observer.watch(machine, &event, count)?;
        if taken.ended {
            return Ok(End::Stopped);
        }
        rest = rest_of(event, count - taken.count);
    }
}
