//! The key of a world: the same bytes for worlds that differ in nothing but the numbers of packets
//! and threads, and in numbers that can't reach a jump.

use crate::cells::{paged_cell, plain_cell};
use crate::facts::Facts;
use crate::reaching::Cells;
use crate::registers::Registers;
use crate::sorting::step_number;
use crate::writer::Writer;
use checked::{Checked, Thread};
use checked_parts::{Frame, Managing, Shared};
use devqueue::{DeviceQueue, Guarded};
use driver_set::driver_of;
use irp::Packet;
use model::cell::Cell;
use model::event::{Lock, OfDevice};
use model::instr::Field;
use model::limits::{CELLS, MAX_QUEUES, REGISTERS, SPIN_LOCKS};
use model::register::Register;
use model::set::QueueName;
use model::status::Status;
use model::world::{Activation, Armer, Completion, Irql, Value};
use std::alloc::AllocError;

/// Writes the key of the world of a machine.
///
/// # Errors
///
/// When memory runs out.
pub fn write_key(writer: &mut Writer, machine: &Checked, facts: &Facts) -> Result<(), AllocError> {
    writer.begin(machine)?;
    add_world(writer, machine, facts);
    writer.finish()
}

fn add_world(writer: &mut Writer, machine: &Checked, facts: &Facts) {
    let shared = machine.shared();
    writer.owner(shared.owner(Lock::SystemCancel));
    add_devices(writer, machine, facts);
    add_threads(writer, machine, facts);
    name_others(writer, shared);
    add_packets(writer, shared, facts);
}

fn add_devices(writer: &mut Writer, machine: &Checked, facts: &Facts) {
    let devices = machine.set().devices().len().min(255) as u8;
    for device in 0..devices {
        add_device(writer, machine.shared(), device);
        let driver = driver_of(machine.set(), device);
        if let Some(cells) = facts.reaching.cells(driver) {
            add_cells(writer, machine.shared(), device, &cells);
        }
    }
}

/// Adds the lists and locks of a device.
fn add_device(writer: &mut Writer, shared: &Shared, device: u8) {
    writer.number(u64::from(shared.is_queued(device)));
    if let Some(start) = shared.start_of(device) {
        add_start(writer, shared, start);
    }
    if let Some(queues) = shared.queues().get(device as usize) {
        add_queues(writer, shared, queues);
    }
    add_locks(writer, shared, device);
}

/// Adds what a device has for StartIo.
fn add_start(writer: &mut Writer, shared: &Shared, start: &DeviceQueue) {
    writer.number(u64::from(start.is_busy()));
    add_entries(writer, shared, start.start_list());
    add_entries(writer, shared, start.waiting());
    add_current(writer, shared, start.current());
}

fn add_current(writer: &mut Writer, shared: &Shared, current: Option<u64>) {
    match current {
        Some(n) => {
            writer.number(1);
            writer.packet(shared, n);
        }
        None => writer.number(0),
    }
}

fn add_queues(writer: &mut Writer, shared: &Shared, queues: &[Guarded; MAX_QUEUES]) {
    for queue in queues.iter() {
        add_entries(writer, shared, queue);
    }
}

fn add_entries(writer: &mut Writer, shared: &Shared, list: &Guarded) {
    writer.number(list.len() as u64);
    for place in 0..list.len() {
        if let Some(n) = list.entry(place) {
            writer.packet(shared, n);
        }
    }
}

fn add_locks(writer: &mut Writer, shared: &Shared, device: u8) {
    for number in 0..SPIN_LOCKS as u8 {
        writer.owner(shared.owner(Lock::Spin(OfDevice { device, number })));
    }
}

fn add_cells(writer: &mut Writer, shared: &Shared, device: u8, cells: &Cells) {
    for number in 0..CELLS as u8 {
        if let Some(cell) = Cell::of(number) {
            add_cell(writer, shared, device, cell, cells);
        }
    }
}

/// Adds the numbers in a plain and in a paged cell, where they matter.
fn add_cell(writer: &mut Writer, shared: &Shared, device: u8, cell: Cell, cells: &Cells) {
    if cells.plain[cell.index()] {
        writer.number(plain_cell(shared, device, cell));
    }
    if cells.paged[cell.index()] {
        writer.number(paged_cell(shared, device, cell));
    }
}

fn add_threads(writer: &mut Writer, machine: &Checked, facts: &Facts) {
    for place in 0..writer.threads() {
        let thread = writer.thread(place);
        if let Some(its) = machine.threads().get(thread as usize) {
            add_thread(writer, machine.shared(), facts, its);
        }
    }
}

fn add_thread(writer: &mut Writer, shared: &Shared, facts: &Facts, thread: &Thread) {
    writer.number(level_number(thread.view().root));
    writer.number(thread.frames().len() as u64);
    for frame in thread.frames() {
        add_frame(writer, shared, facts, frame);
    }
}

fn add_frame(writer: &mut Writer, shared: &Shared, facts: &Facts, frame: &Frame) {
    if let Some(a) = frame.activation() {
        add_place(writer, a);
        add_registers(writer, shared, facts.reaching.registers(a), a);
        return;
    }
    match frame.manager() {
        Some(Managing::Cancels(canceller)) => {
            writer.numbers(&[2, step_number(canceller.next)]);
            writer.packet(shared, canceller.packet);
        }
        Some(Managing::Completes(n)) => {
            writer.number(1);
            writer.packet(shared, n);
        }
        None => {}
    }
}

/// Adds where an activation stands, and the loops that are open there.
fn add_place(writer: &mut Writer, a: &Activation) {
    writer.numbers(&[
        0,
        u64::from(a.driver),
        u64::from(a.routine),
        u64::from(a.device),
        u64::from(a.position),
        a.loops.len() as u64,
    ]);
    for open in a.loops.iter() {
        writer.numbers(&[u64::from(open.start), u64::from(open.turns)]);
    }
}

/// Adds what is in the registers of an activation, where these have numbers that matter.
fn add_registers(writer: &mut Writer, shared: &Shared, reaching: Registers, a: &Activation) {
    for number in 0..REGISTERS as u8 {
        if let Some(register) = Register::of(number) {
            let value = a.registers[register.index()];
            add_value(writer, shared, value, reaching.has(register));
        }
    }
}

/// Adds a value, and if it is a number that matters, which. Of a status it matters whether it is
/// STATUS_PENDING.
fn add_value(writer: &mut Writer, shared: &Shared, value: Value, matters: bool) {
    match value {
        Value::Blank => writer.number(0),
        Value::Num(number) => {
            writer.number(1);
            writer.number_if(matters, number);
        }
        Value::Ref(n) => {
            writer.number(2);
            writer.packet(shared, n);
        }
        Value::Status(status) => writer.number(3 + u64::from(matches!(status, Status::Pending))),
    }
}

/// Names the live packets that no place has named yet, behind the others.
fn name_others(writer: &mut Writer, shared: &Shared) {
    for n in 0..shared.issued() {
        if shared.live_packet(n).is_some() {
            let _name = writer.name(n);
        }
    }
}

/// Adds what the live packets are, by their names.
fn add_packets(writer: &mut Writer, shared: &Shared, facts: &Facts) {
    for name in 0..writer.packets_met() {
        let n = writer.packet_named(name);
        if let Some(packet) = shared.live_packet(n) {
            add_packet(writer, packet, facts);
        }
    }
}

fn add_packet(writer: &mut Writer, packet: &Packet, facts: &Facts) {
    let fields = facts.reaching.fields();
    writer.numbers(&[
        packet.stack_size() as u64,
        u64::from(packet.depth()),
        u64::from(packet.is_completing()),
        u64::from(packet.pending_returned()),
        u64::from(packet.is_cancelled() && facts.uses.cancel),
    ]);
    writer.number_if(fields.information, packet.info());
    add_armer(writer, packet.armer());
    for place in 0..packet.depth() as usize {
        add_location(writer, packet, place, fields.argument);
    }
}

/// Adds what set a packet's cancel routine.
fn add_armer(writer: &mut Writer, armer: Option<Armer>) {
    match armer {
        Some(armer) => {
            writer.numbers(&[1, u64::from(armer.device), queue_number(armer.queue)]);
        }
        None => writer.number(0),
    }
}

/// The number of a queue's name.
fn queue_number(queue: QueueName) -> u64 {
    match queue {
        QueueName::Declared(queue) => u64::from(queue),
        QueueName::DeviceQueue => 256,
    }
}

/// Adds the stack location at a place, with its argument if that matters.
fn add_location(writer: &mut Writer, packet: &Packet, place: usize, argument: bool) {
    let Some(location) = packet.location(place) else {
        return;
    };
    let major = match location.major() {
        Some(major) => u64::from(major.code()),
        None => 255,
    };
    writer.numbers(&[
        major,
        u64::from(location.device()),
        u64::from(location.is_marked()),
    ]);
    writer.number_if(argument, location.field(Field::Argument));
    add_completion(writer, location.completion());
}

fn add_completion(writer: &mut Writer, completion: Option<Completion>) {
    match completion {
        Some(completion) => {
            let routine = u64::from(completion.routine);
            writer.numbers(&[1, routine, u64::from(completion.device)]);
        }
        None => writer.number(0),
    }
}

/// The number of a level.
fn level_number(level: Irql) -> u64 {
    match level {
        Irql::Passive => 0,
        Irql::Apc => 1,
        Irql::Dispatch => 2,
    }
}
