//! Serving a queue of commands.

ghost use Rattle.std.specs.Prelude.{◌≡◌, ◌<◌, ◌≤◌, ℕ, [], length, replicate, slice_get, None, Some};
ghost use Rattle.std.specs.Vec.{vec_capacity};
ghost use Rattle.intake.specs.Ends.{AreTakersOf};
ghost use Rattle.intake.specs.declared.limits.TheConstants.{MAX_TAKERS};
ghost use Rattle.workers.specs.Serves.{Serves};

use crate::ending::Ends;
use crate::locked::{Beginning, Service};
use crate::seating::give_out;
use crate::served::{Served, no_counts};
use crate::starting::{Joined, Shift, run_all};
use crate::working::Gate;
use hostcore::{Core, Seat, Taken};
use intake::{Intake, Taker};
use std::alloc::Global;
use std::marker::Brand;
use std::sync::ledger::Blank;
use std::sync::{Mutex, Wait};
use std::thread::Threads;

/// Nothing is done: all that was handed in comes back.
fn unserved(core: Core, takers: Vec<Taker>, held: Vec<Taken>) -> Served
    requires few { length takers.items ≤ MAX_TAKERS }
    requires none { held.items ≡ [] }
    ensures { Serves core takers.items result }
{
    let counts = no_counts(takers.len());
    Served {
        core,
        takers,
        counts,
        held,
        started: 0,
        ends: Ends::of(0),
        full: false,
    }
}

/// Memory for the seats of workers and for what is held, and a blank ledger.
struct Room {
    seats: Vec<Seat>,
    held: Vec<Taken>,
    blank: Blank,
}

/// Serves with memory for the seats and for what is held, and a blank ledger of one part.
fn serve_from<B: Beginning + Send + Sync, G: Gate + Sync, R: Threads + Wait + Sync>(
    rt: &R,
    mut core: Core,
    intake: &Intake,
    takers: Vec<Taker>,
    gate: &G,
    room: Room,
) -> Served
    requires began { (core ≡ B.core) × (takers.items ≡ B.takers) }
    requires ledger { (room.blank.name ≡ B.name) × (room.blank.parts ≡ B.parts)
        × (room.blank.parts ≡ 1) }
    requires few { length B.takers ≤ MAX_TAKERS }
    requires free { (i : ℕ) → i < length B.takers → slice_get B.core.seats i ≡ Some None }
    requires takers { AreTakersOf intake.now B.takers }
    requires seats { (room.seats.items ≡ []) × (length B.takers ≤ vec_capacity room.seats) }
    requires held { (room.held.items ≡ []) × (0 < vec_capacity room.held) }
    ensures { Serves B.core B.takers result }
{
    let Room {
        mut seats,
        held,
        blank,
    } = room;
    let count = takers.len();
    give_out(&mut core, &mut seats, count);
    let (book, all) = blank.open::<B>();
    let service = Mutex::new(Service::<B>::open(core, seats, takers, book));
    let shift = Shift {
        service: &service,
        intake,
        gate,
    };
    let Joined { ends, started } = run_all(rt, &shift, count, all);
    service.into_inner().close(started, ends, held)
}

/// Serves a queue by a worker for each taker: worker i has the i-th taker and the seat of thread i.
/// Before each turn a worker asks the gate. It steps its thread, if that is busy; else it starts
/// what is due; else it takes a command and performs it. A worker ends when the queue is closed and
/// empty and its thread has nothing to do, and all end when one meets the full history. Workers are
/// started in order, each in a thread of its own, up to one whose thread the system refuses. Where
/// memory is refused nothing is done; no memory is taken once the first worker is started.
pub fn serve<G: Gate + Sync, R: Threads + Wait + Sync>(
    rt: &R,
    alloc: Global,
    core: Core,
    intake: &Intake,
    takers: Vec<Taker>,
    gate: &G,
) -> Served
    requires some { 1 ≤ length takers.items }
    requires limit { length takers.items ≤ MAX_TAKERS }
    requires few { length takers.items ≤ core.threads }
    requires free { core.seats ≡ replicate core.threads None }
    requires takers { AreTakersOf intake.now takers.items }
    ensures { Serves core takers.items result }
{
    let Ok(held) = Vec::with_capacity(alloc, 1) else {
        return unserved(core, takers, Vec::new(alloc));
    };
    let Ok(seats) = Vec::with_capacity(alloc, takers.len()) else {
        return unserved(core, takers, held);
    };
    let room = Room {
        seats,
        held,
        blank: Blank::new(1),
    };
    serve_from::<Brand, G, R>(rt, core, intake, takers, gate, room)
}
