//! What an event changed, in words.

use crate::moment::Moment;
use crate::refusal::refusal_words;
use checked::Checked;
use model::event::{Event, Lock, Reply};
use model::instr::{Cell, Instr, Register, Return};
use model::set::{QueueName, Sort};
use model::status::Status;
use model::view::{FrameView, LiveView, PacketView};
use model::world::{Activation, CancelStep, Canceller};
use tell_audit::ring::{sought_by, waits_for};
use tell_names::{
    Book, CellKind, add_alone, add_bug, add_got, add_loaded, add_lock, add_number, add_packet,
    add_stored, add_top_out, add_value, add_wrong, lock_named, major_name, status_name,
    top_activation, value_at,
};
use tell_uses::standing::{thread_of, top_frame};
use words::Words;

/// What an event is told by: the moment before it, and the machine after it.
#[derive(Clone, Copy)]
struct Scene<'a> {
    event: &'a Event,
    moment: &'a Moment,
    machine: &'a Checked,
}

/// An instruction that a routine executed, and for which device.
#[derive(Clone, Copy)]
struct Executed {
    instr: Instr,
    driver: u8,
    routine: u8,
    device: u8,
}

/// Adds what an event changed.
pub fn add_change(
    words: &mut Words,
    book: &Book<'_>,
    event: &Event,
    moment: &Moment,
    reply: &Reply,
    machine: &Checked,
) {
    match *reply {
        Reply::Started(packet) => add_start(words, book, event, packet),
        Reply::Waited => add_wait(words, book, event, machine),
        Reply::Idle => words.add(idle_words(event)),
        Reply::Refused => add_refusal(words, event, moment),
        Reply::Bug(bug) => add_bug(words, book, bug),
        Reply::Wrong(_) => add_stop(words, book, event, moment, machine),
        Reply::Topped {
            packet,
            status,
            info,
        } => add_top_out(words, packet, ": tops out with ", status, info),
        Reply::Stepped | Reply::Finished => add_step(
            words,
            book,
            &Scene {
                event,
                moment,
                machine,
            },
        ),
    }
}

/// Why an event did nothing.
fn idle_words(event: &Event) -> &'static str {
    match event {
        Event::Interrupt { .. } => "the DPC is queued already",
        Event::Dpc { .. } => "no DPC is queued",
        Event::StartIo { .. } => "the start list is empty",
        Event::Issue { .. } | Event::Cancel { .. } | Event::Step { .. } => {
            "the thread has no frame"
        }
    }
}

/// Adds why an event was refused, and what follows for later ones where that changes their numbers.
fn add_refusal(words: &mut Words, event: &Event, moment: &Moment) {
    words.add(refusal_words(moment));
    if matches!(event, Event::Issue { .. }) {
        words.add("; packets issued later have lower numbers than were counted")
    }
}

/// Adds what is wrong with the instruction that stopped a run.
fn add_stop(words: &mut Words, book: &Book<'_>, event: &Event, moment: &Moment, machine: &Checked) {
    if let (Some(thread), Some(acting)) = (thread_of(event), moment.acting) {
        if let Some(a) = top_activation(machine, thread) {
            add_wrong(words, book, machine, a, acting.instruction)
        }
    }
}

/// Adds what begins.
fn add_start(words: &mut Words, book: &Book<'_>, event: &Event, packet: u64) {
    match *event {
        Event::Issue {
            device,
            major,
            argument,
            ..
        } => {
            add_packet(words, packet, ": a ");
            words.add(major_name(major));
            words.add(" with ");
            add_number(words, argument);
            words.add(" is issued to ");
            book.add_device(words, device)
        }
        Event::Cancel { .. } => add_packet(words, packet, ": IoCancelIrp begins"),
        Event::StartIo { .. } | Event::Dpc { .. } | Event::Interrupt { .. } | Event::Step { .. } =>
            { add_packet(words, packet, ": taken off the start list, StartIo begins") }
    }
}

/// Adds whom a thread waits for, and the lock.
fn add_wait(words: &mut Words, book: &Book<'_>, event: &Event, machine: &Checked) {
    words.add("waits");
    if let Some(thread) = thread_of(event) {
        add_awaited(words, book, machine, thread)
    }
}

/// Adds the thread that a thread waits for, and the lock.
pub(crate) fn add_awaited(words: &mut Words, book: &Book<'_>, machine: &Checked, thread: u8) {
    if let (Some(owner), Some(lock)) = (waits_for(machine, thread), sought_lock(machine, thread)) {
        words.add(": ");
        add_ownership(words, book, owner, lock)
    }
}

/// Adds that a thread owns a lock.
fn add_ownership(words: &mut Words, book: &Book<'_>, owner: u8, lock: Lock) {
    words.add("thread ");
    add_number(words, u64::from(owner));
    words.add(" owns ");
    add_lock(words, book, lock)
}

/// The lock that the next step of a thread acquires.
fn sought_lock(machine: &Checked, thread: u8) -> Option<Lock> {
    sought_by(machine, top_frame(machine, thread)?)
}

/// Adds what a step changed.
fn add_step(words: &mut Words, book: &Book<'_>, scene: &Scene<'_>) {
    let Some(acting) = scene.moment.acting else {
        return add_outside(words, book, scene.event);
    };
    let instruction = acting.instruction;
    let packet = acting.packet;
    match acting.frame {
        FrameView::Walk(n) => add_walk(words, n, scene.moment, scene.machine),
        FrameView::Cancel(canceller) => add_cancelling(words, canceller, scene),
        FrameView::Routine {
            driver,
            routine,
            device,
            ..
        } => {
            if let Some(instr) = instruction {
                let executed = Executed {
                    instr,
                    driver,
                    routine,
                    device,
                };
                add_executed(words, book, scene, packet, executed)
            }
        }
    }
}

/// Adds what an instruction did, about a packet or not.
fn add_executed(
    words: &mut Words,
    book: &Book<'_>,
    scene: &Scene<'_>,
    packet: Option<u64>,
    executed: Executed,
) {
    match packet {
        Some(n) => add_about(words, book, scene, n, executed),
        None => add_other(words, book, scene, executed),
    }
}

/// Adds what an event changed in which no frame acts.
fn add_outside(words: &mut Words, book: &Book<'_>, event: &Event) {
    match *event {
        Event::Interrupt { device } => {
            book.add_device(words, device);
            words.add(": its DPC is queued")
        }
        Event::Dpc { device, .. } => {
            book.add_device(words, device);
            words.add(": its DPC routine begins")
        }
        Event::Cancel { packet, .. } => {
            add_packet(words, packet, ": has topped out, nothing to cancel")
        }
        Event::Issue { .. } | Event::StartIo { .. } | Event::Step { .. } => {}
    }
}

/// Adds how completion goes on.
fn add_walk(words: &mut Words, n: u64, moment: &Moment, machine: &Checked) {
    if let Some(before) = live_before(moment) {
        add_packet(words, n, ": completion leaves location ");
        add_number(words, u64::from(before.depth));
        if let PacketView::Live(after) = machine.packet(n) {
            add_carried(words, &before, &after)
        }
    }
}

/// Adds where the mark of a packet was carried up to, if it was.
fn add_carried(words: &mut Words, before: &LiveView, after: &LiveView) {
    if mark_at(after, after.depth) && !mark_at(before, after.depth) {
        words.add(", the mark is carried up to ");
        add_number(words, u64::from(after.depth))
    }
}

/// The packet before a step that is about it, where it was looked at and lives.
fn live_before(moment: &Moment) -> Option<LiveView> {
    match moment.packet {
        Some(PacketView::Live(before)) => Some(before),
        Some(PacketView::Never | PacketView::Topped) | None => None,
    }
}

/// Whether the location of a depth is marked.
fn mark_at(packet: &LiveView, depth: u8) -> bool {
    match packet.marks.get((depth as usize).saturating_sub(1)) {
        Some(marked) => *marked,
        None => false,
    }
}

/// Adds what IoCancelIrp has done.
fn add_cancelling(words: &mut Words, canceller: Canceller, scene: &Scene<'_>) {
    match canceller.next {
        CancelStep::Acquire => words.add("owns the system cancel spin lock"),
        CancelStep::SetFlag | CancelStep::Exchange => {
            add_packet(words, canceller.packet, cancelled_of(canceller, scene))
        }
    }
}

/// What it has done with a packet, once it owns the system cancel spin lock.
fn cancelled_of(canceller: Canceller, scene: &Scene<'_>) -> &'static str {
    let Canceller { packet: n, next } = canceller;
    let machine = scene.machine;
    let released = matches!(machine.shared().owner(Lock::SystemCancel), Some(None));
    if released && matches!(machine.packet(n), PacketView::Topped) {
        return ": has topped out; the system cancel spin lock is free";
    }
    match next {
        CancelStep::SetFlag => match live_before(scene.moment) {
            Some(LiveView { cancel: true, .. }) => ": Irp->Cancel is set already",
            _ => ": Irp->Cancel is set",
        },
        CancelStep::Acquire | CancelStep::Exchange if released => {
            ": no cancel routine was set; the system cancel spin lock is free"
        }
        CancelStep::Acquire | CancelStep::Exchange => ": its cancel routine is called",
    }
}

/// The routine on the top of the thread of an event, after it.
fn activation_after<'a>(scene: &Scene<'a>) -> Option<&'a Activation> {
    top_activation(scene.machine, thread_of(scene.event)?)
}

/// Adds what an instruction did that is about a packet.
fn add_about(words: &mut Words, book: &Book<'_>, scene: &Scene<'_>, n: u64, executed: Executed) {
    let instr = executed.instr;
    if let Instr::Get(r, _, field) = instr {
        if let Some(after) = activation_after(scene) {
            add_got(words, r, n, field, after)
        }
        return;
    }
    add_packet(words, n, ": ");
    add_done(words, book, scene, n, executed)
}

/// Adds what an instruction did with a packet.
fn add_done(words: &mut Words, book: &Book<'_>, scene: &Scene<'_>, n: u64, executed: Executed) {
    let instr = executed.instr;
    match instr {
        Instr::Put(_, r) => add_put(words, scene, r),
        Instr::Mark(_) => words.add(marked_of(live_before(scene.moment))),
        Instr::Insert(_, queue) => add_inserted(words, book, executed, queue),
        Instr::Remove(_, queue, _) | Instr::Unlink(_, queue) => {
            add_off(words, book, scene, executed, QueueName::Declared(queue))
        }
        Instr::Dequeue(_) => add_off(words, book, scene, executed, QueueName::DeviceQueue),
        Instr::Arm(_, queue) => add_armed(words, book, scene, executed, queue),
        Instr::Disarm(_, _) => words.add(disarming_of(live_before(scene.moment))),
        Instr::IfCancel(_, _) => words.add(cancelled_before(live_before(scene.moment))),
        Instr::Start(_) => add_started(words, scene, executed),
        Instr::Take(_, _) => words.add("taken out of the current slot"),
        Instr::Begin(_) => words.add(begun_of(scene.moment)),
        Instr::Next => add_next(words, scene, n),
        Instr::Pass(_) | Instr::Call(_, _) => add_sent(words, book, scene, executed.device, n),
        Instr::Complete(_, status) => add_completed(words, status),
        Instr::IfPending(_, _) => words.add(pending_of(scene, n)),
        Instr::Const(_, _)
        | Instr::Move(_, _)
        | Instr::Clear(_)
        | Instr::Add(_, _)
        | Instr::Subtract(_, _)
        | Instr::JumpIfZero(_, _)
        | Instr::JumpIfLess(_, _, _)
        | Instr::Jump(_)
        | Instr::Loop(_)
        | Instr::End
        | Instr::Load(_, _)
        | Instr::Store(_, _)
        | Instr::LoadPaged(_, _)
        | Instr::StorePaged(_, _)
        | Instr::Get(_, _, _)
        | Instr::Acquire(_)
        | Instr::Release(_)
        | Instr::AcquireCancel
        | Instr::ReleaseCancel
        | Instr::Ret(_) => {}
    }
}

/// Adds that the cancel routine of a queue was set.
fn add_armed(words: &mut Words, book: &Book<'_>, scene: &Scene<'_>, executed: Executed, queue: u8) {
    words.add("the cancel routine is set of queue ");
    book.add_queue(words, executed.driver, queue);
    let name = QueueName::Declared(queue);
    words.add(set_before(scene.moment, executed.device, name))
}

/// Adds with which status a packet was completed.
fn add_completed(words: &mut Words, status: Status) {
    words.add("IoCompleteRequest is called with ");
    words.add(status_name(status))
}

/// Adds the information that a packet has got from a register.
fn add_put(words: &mut Words, scene: &Scene<'_>, r: Register) {
    words.add("its information is ");
    if let Some(after) = activation_after(scene) {
        add_value(words, value_at(r, after))
    }
}

/// What became of the cancel routine of a packet, by how it was before.
fn disarming_of(before: Option<LiveView>) -> &'static str {
    match before {
        Some(LiveView { armer: Some(_), .. }) => "its cancel routine is set no more",
        _ => "no cancel routine was set",
    }
}

/// Whether Irp->Cancel of a packet was set.
fn cancelled_before(before: Option<LiveView>) -> &'static str {
    match before {
        Some(LiveView { cancel: true, .. }) => "Irp->Cancel is set",
        _ => "Irp->Cancel isn't set",
    }
}

/// What is said of a packet that is marked, by how it was before.
fn marked_of(before: Option<LiveView>) -> &'static str {
    match before {
        Some(before) if mark_at(&before, before.depth) => {
            "its current location is marked pending already"
        }
        _ => "its current location is marked pending",
    }
}

/// Whether PendingReturned of a packet is set.
fn pending_of(scene: &Scene<'_>, n: u64) -> &'static str {
    match scene.machine.shared().live_packet(n) {
        Some(packet) if packet.pending_returned() => "PendingReturned is set",
        _ => "PendingReturned isn't set",
    }
}

/// How a cancel routine was set before a step that sets that of a list of a device.
fn set_before(moment: &Moment, device: u8, queue: QueueName) -> &'static str {
    let Some(
        LiveView {
            armer: Some(before),
            ..
        },
    ) = live_before(moment)
    else {
        return "";
    };
    if before.device == device && before.queue == queue {
        ", as before"
    } else {
        ", in place of another"
    }
}

/// Adds into which queue a packet was put.
fn add_inserted(words: &mut Words, book: &Book<'_>, executed: Executed, queue: u8) {
    words.add("put into queue ");
    book.add_queue(words, executed.driver, queue)
}

/// Adds where a packet is that was to be started: it waits where the device was busy.
fn add_started(words: &mut Words, scene: &Scene<'_>, executed: Executed) {
    if was_found(scene.moment) {
        return add_waiting(words, scene, executed);
    }
    words.add("put into the start list")
}

/// Adds that the next packet is to be started.
fn add_next(words: &mut Words, scene: &Scene<'_>, n: u64) {
    words.add("goes from the device queue to the start list");
    words.add(disarmed_of(scene, n))
}

/// What became of the current slot into which a packet was put.
fn begun_of(moment: &Moment) -> &'static str {
    if was_found(moment) {
        "is in the current slot already"
    } else {
        "put into the current slot"
    }
}

/// Whether a step found what it looked for.
fn was_found(moment: &Moment) -> bool {
    moment.found == Some(true)
}

/// Adds that a packet waits in the device queue, and how its cancel routine was set.
fn add_waiting(words: &mut Words, scene: &Scene<'_>, executed: Executed) {
    words.add("waits in the device queue");
    let name = QueueName::DeviceQueue;
    if scene.machine.set().has_cancel(executed.driver, name) {
        words.add("; its cancel routine is set");
        words.add(set_before(scene.moment, executed.device, name))
    }
}

/// That the cancel routine of a packet is set no more, if it was.
fn disarmed_of(scene: &Scene<'_>, n: u64) -> &'static str {
    let was_set = matches!(
        live_before(scene.moment),
        Some(LiveView { armer: Some(_), .. })
    );
    let is_set_no_more = matches!(
        scene.machine.packet(n),
        PacketView::Live(LiveView { armer: None, .. })
    );
    if was_set && is_set_no_more {
        "; its cancel routine is set no more"
    } else {
        ""
    }
}

/// Adds that a packet was taken off a list of the device, or that it wasn't found there.
fn add_off(
    words: &mut Words,
    book: &Book<'_>,
    scene: &Scene<'_>,
    executed: Executed,
    list: QueueName,
) {
    let found = was_found(scene.moment);
    words.add(if found { "taken off " } else { "isn't in " });
    match list {
        QueueName::Declared(queue) => {
            words.add("queue ");
            book.add_queue(words, executed.driver, queue)
        }
        QueueName::DeviceQueue => words.add("the device queue"),
    }
    let sort = scene.machine.set().sort(executed.driver, executed.routine);
    if !found && matches!(sort, Sort::Cancel) {
        words.add("; the cancel routine has it")
    }
}

/// Adds to where a packet was sent down.
fn add_sent(words: &mut Words, book: &Book<'_>, scene: &Scene<'_>, device: u8, n: u64) {
    words.add("sent down");
    if let Some(lower) = scene.machine.set().lower(device) {
        words.add(" to ");
        book.add_device(words, lower);
    }
    if let PacketView::Live(after) = scene.machine.packet(n) {
        words.add(", location ");
        add_number(words, u64::from(after.depth))
    }
}

/// Adds what an instruction did that is about no packet.
fn add_other(words: &mut Words, book: &Book<'_>, scene: &Scene<'_>, executed: Executed) {
    let instr = executed.instr;
    match instr {
        Instr::Const(_, _)
        | Instr::Move(_, _)
        | Instr::Clear(_)
        | Instr::Add(_, _)
        | Instr::Subtract(_, _)
        | Instr::JumpIfZero(_, _)
        | Instr::JumpIfLess(_, _, _)
        | Instr::Jump(_)
        | Instr::Loop(_)
        | Instr::End => add_own(words, book, scene),
        Instr::Load(r, cell) => add_load(words, book, scene, r, CellKind::Plain, cell),
        Instr::LoadPaged(r, cell) => add_load(words, book, scene, r, CellKind::Paged, cell),
        Instr::Store(cell, r) => add_store(words, book, scene, r, CellKind::Plain, cell),
        Instr::StorePaged(cell, r) => add_store(words, book, scene, r, CellKind::Paged, cell),
        Instr::Acquire(_) | Instr::AcquireCancel => add_acquired(words, book, scene, executed),
        Instr::Release(_) | Instr::ReleaseCancel => add_released(words, book, executed),
        Instr::Remove(_, queue, _) => add_empty(words, book, executed.driver, queue),
        Instr::Take(_, _) => words.add("the current slot is empty"),
        Instr::Next => add_idle(words, book, scene.moment, executed.device),
        Instr::Ret(form) => add_return(words, form, scene.moment.returned),
        Instr::Get(_, _, _)
        | Instr::Put(_, _)
        | Instr::Mark(_)
        | Instr::Insert(_, _)
        | Instr::Unlink(_, _)
        | Instr::Arm(_, _)
        | Instr::Disarm(_, _)
        | Instr::IfCancel(_, _)
        | Instr::Start(_)
        | Instr::Begin(_)
        | Instr::Dequeue(_)
        | Instr::Pass(_)
        | Instr::Call(_, _)
        | Instr::Complete(_, _)
        | Instr::IfPending(_, _) => {}
    }
}

/// Adds that a thread owns the lock that an instruction acquires.
fn add_acquired(words: &mut Words, book: &Book<'_>, scene: &Scene<'_>, executed: Executed) {
    if let (Some(thread), Some(lock)) = (thread_of(scene.event), lock_of(executed)) {
        add_ownership(words, book, thread, lock)
    }
}

/// Adds that the lock is free that an instruction releases.
fn add_released(words: &mut Words, book: &Book<'_>, executed: Executed) {
    if let Some(lock) = lock_of(executed) {
        add_lock(words, book, lock);
        words.add(" is free")
    }
}

/// The lock that an instruction acquires or releases, if it does.
fn lock_of(executed: Executed) -> Option<Lock> {
    let instr = executed.instr;
    lock_named(&instr, executed.device)
}

/// Adds that a queue had no packet.
fn add_empty(words: &mut Words, book: &Book<'_>, driver: u8, queue: u8) {
    words.add("queue ");
    book.add_queue(words, driver, queue);
    words.add(" is empty")
}

/// Adds that no packet waited in the device queue, by whether the device was busy.
fn add_idle(words: &mut Words, book: &Book<'_>, moment: &Moment, device: u8) {
    book.add_device(words, device);
    words.add(if was_found(moment) {
        " is idle: no packet waits"
    } else {
        " is idle already: no packet waits"
    })
}

/// Adds what a routine returned: what a lower driver returned, where it returns that.
fn add_return(words: &mut Words, form: Return, returned: Option<Status>) {
    match returned {
        Some(status) => {
            words.add(status_name(status));
            words.add(", which the lower driver returned")
        }
        None => words.add(match form {
            Return::WithStatus(status) => status_name(status),
            Return::Continue => "completion goes on",
            Return::Stop => "STATUS_MORE_PROCESSING_REQUIRED: the packet is held",
            Return::Lower(_) | Return::Void => "",
        }),
    }
}

/// Adds what a step did to its own routine: to registers, or where it goes on.
fn add_own(words: &mut Words, book: &Book<'_>, scene: &Scene<'_>) {
    if let (Some(acting), Some(thread)) = (scene.moment.acting, thread_of(scene.event)) {
        add_alone(words, book, thread, acting.frame, scene.machine)
    }
}

/// Adds the number that a register got from a cell.
fn add_load(
    words: &mut Words,
    book: &Book<'_>,
    scene: &Scene<'_>,
    r: Register,
    kind: CellKind,
    cell: Cell,
) {
    if let Some(after) = activation_after(scene) {
        add_loaded(words, book, r, kind, cell, after)
    }
}

/// Adds the number that a cell got from a register.
fn add_store(
    words: &mut Words,
    book: &Book<'_>,
    scene: &Scene<'_>,
    r: Register,
    kind: CellKind,
    cell: Cell,
) {
    if let Some(after) = activation_after(scene) {
        add_stored(words, book, kind, cell, r, after)
    }
}
