//! Two ways to embed Pafteis: a world that is stepped by hand, and a core that performs commands
//! which have names.
#![tactic(auto)]

mod trouble;

use asm::assemble;
use hostcore::{Core, Desk, LogFull, Seat, Taken, Ticket};
use machine::World;
use model::event::{Event, Reply};
use model::history::{Command, Outcome};
use model::status::Major;
use model::view::PacketView;
use std::alloc::Global;
use trouble::Trouble;
use verifier::{Accepted, verify};

/// A driver that completes each read at once, and a device of it.
const ECHO: &[u8] =
    b"driver echo\ndispatch READ on_read\nroutine on_read dispatch\ncomplete r0 SUCCESS\n\
      ret SUCCESS\nendr\nendd\ndevice disk echo 1\n";

/// Steps after which a command is left as it stands.
const MOST_STEPS: u32 = 1_000;

fn main(rt: HostRuntime) -> Result<(), Trouble> {
    let alloc = rt.alloc();
    step_a_world(&rt, alloc, accepted(alloc, ECHO)?)?;
    perform_a_command(&rt, alloc, accepted(alloc, ECHO)?)
}

/// The set of a driver text, where it is accepted.
fn accepted(alloc: Global, text: &[u8]) -> Result<Accepted, Trouble> {
    let set = assemble(alloc, text)?;
    verify(alloc, set).map_err(|(_set, refusal)| Trouble::Refused(refusal))
}

/// A world of two threads, in which a read is done.
fn step_a_world<R: Print>(rt: &R, alloc: Global, accepted: Accepted) -> Result<(), Trouble> {
    let mut world = World::new(alloc, accepted, 2).map_err(|_back| Trouble::Memory)?;
    read_by_steps(rt, &mut world)
}

/// A read, event by event: it is issued on thread 0, which then steps.
fn read_by_steps<R: Print>(rt: &R, world: &mut World) -> Result<(), Trouble> {
    let issue = Event::Issue {
        thread: 0,
        device: 0,
        major: Major::Read,
        argument: 7,
    };
    tell(rt, "issue", world.apply(&issue))?;
    look(rt, world)?;
    for _ in 0..4 {
        tell(rt, "step", world.apply(&Event::Step { thread: 0 }))?;
    }
    look(rt, world)
}

/// What was done, and the reply to it.
fn tell<R: Print>(rt: &R, done: &str, reply: Reply) -> Result<(), Trouble> {
    println!(rt; "{done}: {reply}")?;
    Ok(())
}

/// What a world tells of its thread 0, its packet 0 and its device 0.
fn look<R: Print>(rt: &R, world: &World) -> Result<(), Trouble> {
    let frames = world.thread(0).map_or(0, |thread| thread.frames);
    let packet = match world.packet(0) {
        PacketView::Never => "not issued",
        PacketView::Live(_) => "live",
        PacketView::Topped => "done",
    };
    let (start_io, dpc) = world.due(0);
    println!(rt; "frames {frames}, packet {packet}, StartIo due {start_io}, DPC due {dpc}")?;
    Ok(())
}

/// A core of two threads, by which the same read is done.
fn perform_a_command<R: Print>(rt: &R, alloc: Global, accepted: Accepted) -> Result<(), Trouble> {
    let mut core = Core::new(alloc, accepted, 2, 100).map_err(|_back| Trouble::Memory)?;
    read_with_a_seat(rt, &mut core)
}

/// A read with the seat of thread 0, which is handed back before an error is passed on.
fn read_with_a_seat<R: Print>(rt: &R, core: &mut Core) -> Result<(), Trouble> {
    let Some(mut seat) = core.seat(0) else {
        return Err(Trouble::NoSeat);
    };
    let ended = read_by_name(rt, core, &mut seat);
    let entries = core.give_back(seat);
    ended?;
    println!(rt; "entries {entries}")?;
    Ok(())
}

/// A read as a command with a name. Its ticket is handed back before an error is passed on.
fn read_by_name<R: Print>(rt: &R, core: &mut Core, seat: &mut Seat) -> Result<(), Trouble> {
    let mut desk = Desk::new(0);
    let (ticket, queued) = desk.open(Command::Request {
        device: 0,
        major: Major::Read,
        argument: 7,
    });
    let ended = perform(rt, core, seat, queued.taken());
    let outcome = outcome_of(core, ticket);
    ended?;
    tell_outcome(rt, outcome)
}

/// Performs a command with a seat, whose thread then steps until it has nothing to do.
fn perform<R: Print>(
    rt: &R,
    core: &mut Core,
    seat: &mut Seat,
    taken: Taken,
) -> Result<(), Trouble> {
    match core.perform(seat, taken) {
        Ok(reply) => tell(rt, "perform", reply)?,
        Err((LogFull, back)) => {
            let _command = back.give_up();
            return Err(Trouble::HistoryFull);
        }
    }
    for _ in 0..MOST_STEPS {
        if !core.busy(seat) {
            break;
        }
        tell(rt, "step", core.step(seat)?)?;
    }
    Ok(())
}

/// What came of a command; nothing where that is owed still.
fn outcome_of(core: &Core, ticket: Ticket) -> Option<Outcome> {
    match core.collect(ticket) {
        Ok(outcome) => Some(outcome),
        Err(back) => {
            let _reply = core.abandon(back);
            None
        }
    }
}

/// What came of a command, if that isn't owed still.
fn tell_outcome<R: Print>(rt: &R, outcome: Option<Outcome>) -> Result<(), Trouble> {
    match outcome {
        Some(outcome) => println!(rt; "collected: {outcome}")?,
        None => println!(rt; "owed still")?,
    }
    Ok(())
}
