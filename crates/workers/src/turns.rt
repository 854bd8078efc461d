//! One turn of a worker.

ghost use Rattle.std.specs.Prelude.{◌≡◌, None, Some, false};
ghost use Rattle.model.specs.View.{busy_at};
ghost use Rattle.hostcore.specs.Core.{world_of};
ghost use Rattle.intake.specs.Ends.{TakerState};
ghost use Rattle.workers.specs.Turned.{IsFirstDue, IsNext, Turned, start_of, took};

use crate::ending::End;
use hostcore::{Core, Seat, Stepped, Taken};
use intake::{Found, Intake, Taker};
use model::event::{Event, Reply};
use model::limits::MAX_DEVICES;
use std::sync::Wait;

/// What a turn came to.
pub enum Turn {
    /// There is one entry more.
    Entered,
    /// The thread waits: nothing changed.
    Waits,
    /// There was nothing to do, and there may be later: nothing changed.
    Rests,
    /// There is nothing left to do: nothing changed.
    Ended(End),
    /// The history is full: nothing was entered. A command that was taken comes with it.
    Full(Option<Taken>),
}

/// What an idle thread starts of a device: the front of its start list before its DPC.
fn start_of(core: &Core, thread: u8, device: u8) -> Option<Event>
    ensures { result ≡ start_of (world_of core.now) thread device }
{
    match core.due(device) {
        (true, _) => Some(Event::StartIo { thread, device }),
        (false, true) => Some(Event::Dpc { thread, device }),
        (false, false) => None,
    }
}

/// What an idle thread starts: what is due of the least device that has anything due.
fn first_due(core: &Core, thread: u8) -> Option<Event>
    ensures first { IsFirstDue (world_of core.now) thread result }
{
    for device in 0..MAX_DEVICES as u8 {
        let event = start_of(core, thread, device);
        if event.is_some() {
            return event;
        }
    }
    None
}

/// Starts what is due, on an idle thread.
fn go(core: &mut Core, seat: &mut Seat, event: Event) -> Turn
    requires next { IsNext (world_of core.old) seat.old (Some event) }
    ensures turned { (taker : TakerState) → Turned seat.old core.old core.new taker taker result }
    ensures seat { seat.new ≡ seat.old }
{
    match core.apply(seat, event) {
        Ok(Reply::Waited | Reply::Idle) => Turn::Rests,
        Ok(_) => Turn::Entered,
        Err(_) => Turn::Full(None),
    }
}

/// Performs a command.
fn perform(core: &mut Core, seat: &mut Seat, taken: Taken) -> Turn
    requires next { IsNext (world_of core.old) seat.old None }
    ensures turned { (taker : TakerState)
        → Turned seat.old core.old core.new taker (took taker taken) result }
    ensures seat { seat.new ≡ seat.old }
{
    match core.perform(seat, taken) {
        Ok(_) => Turn::Entered,
        Err((_, taken)) => Turn::Full(Some(taken)),
    }
}

/// A turn of a worker: what its thread does next of itself, or else the next command.
pub fn take_turn<R: Wait>(
    rt: &R,
    core: &mut Core,
    seat: &mut Seat,
    taker: &mut Taker,
    intake: &Intake,
) -> Turn
    requires queue { taker.old.queue ≡ intake.now }
    ensures turned { Turned seat.old core.old core.new taker.old taker.new result }
    ensures seat { seat.new ≡ seat.old }
{
    match core.step_if_busy(seat) {
        Stepped::Entered => Turn::Entered,
        Stepped::Waits => Turn::Waits,
        Stepped::Full => Turn::Full(None),
        Stepped::Idle => idle_turn(rt, core, seat, taker, intake),
    }
}

/// A turn of a worker whose thread has no frames: it starts what is due, or else performs the next
/// command.
fn idle_turn<R: Wait>(
    rt: &R,
    core: &mut Core,
    seat: &mut Seat,
    taker: &mut Taker,
    intake: &Intake,
) -> Turn
    requires idle { busy_at (world_of core.old) seat.old ≡ false }
    requires queue { taker.old.queue ≡ intake.now }
    ensures turned { Turned seat.old core.old core.new taker.old taker.new result }
    ensures seat { seat.new ≡ seat.old }
{
    if let Some(event) = first_due(core, seat.thread()) {
        return go(core, seat, event);
    }
    let closed = intake.closing();
    match taker.take_or_end(rt, intake, closed) {
        Found::Command(taken) => perform(core, seat, taken),
        Found::Nothing => Turn::Rests,
        Found::End(drained) => Turn::Ended(End::drained(core, seat, intake, drained)),
    }
}
