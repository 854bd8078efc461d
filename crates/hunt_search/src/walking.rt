//! Runs at random. A thread goes on alone while its steps are its own, and mostly behind that too;
//! where it is left, another one goes on, or something begins on an idle thread. So a run is mostly
//! of one root behind the other, with few changes of thread, which is what faults need.

use crate::expanding::run_at;
use crate::local::is_local;
use crate::luck::Luck;
use crate::moves::{devices_of, first_idle, is_idle, live_packets};
use crate::plan::Plan;
use crate::pool::Pool;
use checked::{Checked, says_unchanged};
use driver_set::DriverSet;
use hunt_facts::requests::Request;
use model::event::{Event, Reply};
use std::alloc::{AllocError, Global};
use tell_audit::rehearsal::Rehearsal;
use tell_audit::ring::waits_for;

/// How often a run goes on, at most.
const MAX_MOVES: usize = 200;

/// The steps of its own that a thread makes in a row, at most.
const MAX_ROW: usize = 5_000;

/// A thread that can go on is left once in so many times.
const LEAVING: usize = 8;

/// What the begin of a run costs, in steps.
pub(crate) const BEGIN: usize = 20;

/// What runs are tried in.
#[derive(Clone, Copy)]
pub(crate) struct Ground<'a> {
    pub(crate) alloc: Global,
    pub(crate) set: &'a DriverSet,
    pub(crate) plan: &'a Plan,
    pub(crate) pool: &'a Pool,
}

/// A run that goes on.
#[derive(Drop)]
struct Walk {
    run: Rehearsal,
    /// The events that have changed something.
    events: Vec<Event>,
    /// The thread that goes on.
    thread: Option<u8>,
    /// What its last event replied.
    reply: Reply,
}

impl Walk {
    /// Applies an event, and keeps it if it has changed something.
    fn apply(&mut self, luck: &mut Luck, event: Event) -> Result<(), AllocError> {
        luck.spend(1);
        self.reply = self.run.apply(&event)?;
        if !says_unchanged(&self.reply) {
            self.events.push(event)?;
        }
        Ok(())
    }
}

/// The events of a run at random that ends amiss; none where it doesn't.
pub(crate) fn amiss_run(
    ground: &Ground<'_>,
    luck: &mut Luck,
) -> Result<Option<Vec<Event>>, AllocError> {
    let mut walk = Walk {
        run: run_at(ground.alloc, ground.set, ground.plan, [].as_slice())?,
        events: Vec::new(ground.alloc),
        thread: None,
        reply: Reply::Idle,
    };
    luck.spend(BEGIN);
    if comes_amiss(ground, luck, &mut walk)? {
        Ok(Some(walk.events))
    } else {
        Ok(None)
    }
}

/// Lets a run go on until something is amiss, and answers whether that is so.
fn comes_amiss(ground: &Ground<'_>, luck: &mut Luck, walk: &mut Walk) -> Result<bool, AllocError> {
    for _move in 0..MAX_MOVES {
        if luck.is_out() {
            break;
        }
        go_on(ground, luck, walk)?;
        if walk.run.amiss(&walk.reply)?.is_some() {
            return Ok(true);
        }
    }
    Ok(false)
}

/// Lets a run go on: on the thread that went on last, or on another one, or by something that
/// begins on an idle one.
fn go_on(ground: &Ground<'_>, luck: &mut Luck, walk: &mut Walk) -> Result<(), AllocError> {
    let threads = ground.plan.bounds().threads;
    let idle = first_idle(walk.run.machine(), threads);
    let chosen = chosen(luck, walk, threads, idle.is_some());
    luck.spend(1);
    match (chosen, idle) {
        (Some(thread), _) => walk.apply(luck, Event::Step { thread })?,
        (None, Some(thread)) => begin(ground, luck, walk, thread)?,
        (None, None) => {}
    }
    walk.thread = chosen.or(idle);
    go_on_alone(ground.alloc, luck, walk)
}

/// The thread that goes on, where one does: mostly the same as before.
fn chosen(luck: &mut Luck, walk: &Walk, threads: u8, is_idle: bool) -> Option<u8> {
    let machine = walk.run.machine();
    let last = walk.thread?;
    if is_ready(machine, last) && luck.below(LEAVING) > 0 {
        return Some(last);
    }
    if is_idle && luck.below(2) > 0 {
        return None;
    }
    let from = luck.below(threads as usize).min(255) as u8;
    first_ready(machine, from, threads).or(first_ready(machine, 0, from))
}

/// The first thread that can go on, among those from one up to another.
fn first_ready(machine: &Checked, from: u8, end: u8) -> Option<u8> {
    for thread in from..end {
        if is_ready(machine, thread) {
            return Some(thread);
        }
    }
    None
}

/// Whether a thread has something to go on with, and doesn't wait.
fn is_ready(machine: &Checked, thread: u8) -> bool {
    !is_idle(machine, thread) && waits_for(machine, thread).is_none()
}

/// Lets the thread of a run go on as long as its steps are its own.
fn go_on_alone(alloc: Global, luck: &mut Luck, walk: &mut Walk) -> Result<(), AllocError> {
    let Some(thread) = walk.thread else {
        return Ok(());
    };
    for _step in 0..MAX_ROW {
        if luck.is_out() || walk.run.machine().stopped() {
            break;
        }
        if !is_local(alloc, walk.run.machine(), thread)? {
            break;
        }
        walk.apply(luck, Event::Step { thread })?;
    }
    Ok(())
}

/// Begins something on an idle thread. A DPC that isn't queued is queued before.
fn begin(
    ground: &Ground<'_>,
    luck: &mut Luck,
    walk: &mut Walk,
    thread: u8,
) -> Result<(), AllocError> {
    let Some(event) = root(ground, luck, walk.run.machine(), thread) else {
        return Ok(());
    };
    if let Event::Dpc { device, .. } = event {
        walk.apply(luck, Event::Interrupt { device })?;
    }
    walk.apply(luck, event)
}

/// What begins on an idle thread: a DPC, StartIo where it is due, IoCancelIrp, or else a request
/// where so many packets may live.
fn root(ground: &Ground<'_>, luck: &mut Luck, machine: &Checked, thread: u8) -> Option<Event> {
    let device = luck.below(devices_of(machine) as usize).min(255) as u8;
    let sort = luck.below(4);
    if sort == 0 && machine.set().dpc(device).is_some() {
        return Some(Event::Dpc { thread, device });
    }
    if sort == 1 && machine.due(device).0 {
        return Some(Event::StartIo { thread, device });
    }
    let live = live_packets(machine);
    if sort == 2 && live > 0 {
        return cancel(ground, luck, machine, thread);
    }
    if live < ground.plan.bounds().packets {
        return request(ground.pool, luck, thread);
    }
    None
}

/// IoCancelIrp for the first live packet from some number on.
fn cancel(ground: &Ground<'_>, luck: &mut Luck, machine: &Checked, thread: u8) -> Option<Event> {
    let issued = machine.shared().issued();
    let is_raised = luck.below(2) > 0 && ground.plan.facts().uses.paged;
    let level = if is_raised { 2 } else { 0 };
    let from = luck.below(issued as usize) as u64;
    for packet in from..issued {
        if machine.shared().live_packet(packet).is_some() {
            return Some(Event::Cancel {
                thread,
                packet,
                level,
            });
        }
    }
    None
}

/// A request with an argument.
fn request(pool: &Pool, luck: &mut Luck, thread: u8) -> Option<Event> {
    let requests = pool.requests.as_slice();
    let arguments = pool.arguments.as_slice();
    let request = *requests.get(luck.below(requests.len()))?;
    let argument = *arguments.get(luck.below(arguments.len()))?;
    Some(Request {
        argument,
        ..request
    }
    .on(thread))
}
