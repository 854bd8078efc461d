//! What an event does to uses of stack locations.

ghost use Rattle.std.specs.Prelude.{◌≡◌, Some};
ghost use Rattle.model.specs.World.{completion_of, current_location, packet_of};
ghost use Rattle.tell_uses.specs.Acting.{acting_in};
ghost use Rattle.tell_uses.specs.Acts.{may_use, frame_uses, instruction_uses, leaves_packet};
ghost use Rattle.tell_uses.specs.Acts.{live_in, onward_of, status_by, use_step};

use crate::acting::Acting;
use crate::standing::{instruction_at, packet_in, top_frame};
use checked::Checked;
use checked_parts::{Frame, status_in};
use driver_set::{Instr, Register, Return, Sort};
use irp::Packet;
use model::event::Event;
use model::status::Status;
use model::world::Activation;

/// What completion does when it has left a location.
#[derive(Clone, Copy)]
pub enum Onward {
    /// The location above becomes current.
    Up,
    /// It does, and is marked.
    UpMarked,
    /// The packet tops out.
    Out,
}

/// What an event does to uses of stack locations, if it isn't refused.
#[derive(Clone, Copy)]
pub enum UseStep {
    /// Nothing.
    Nothing,
    /// The packet of this number is issued, which opens a use of its first location.
    Issue(u64),
    /// It is sent down in a location of its own, which opens a use of that.
    Call(u64),
    /// Its current location is marked.
    Mark(u64),
    /// Completion leaves its current location.
    Leave(u64, Onward),
    /// A dispatch routine returns a status.
    Return(Status),
}

/// The live packet in a register.
fn live_in(machine: &Checked, a: &Activation, r: Register) -> Option<u64>
    ensures { result ≡ live_in machine.now.world.shared a.now r }
{
    let n = packet_in(machine, a.registers[r.index()])?;
    match machine.shared().live_packet(n) {
        Some(_) => Some(n),
        None => None,
    }
}

/// The status that a routine of a sort returns.
fn status_by(sort: Sort, a: &Activation, form: Return) -> Option<Status>
    ensures { result ≡ status_by sort a.now form }
{
    match (sort, form) {
        (Sort::Dispatch, Return::WithStatus(status)) => Some(status),
        (Sort::Dispatch, Return::Lower(r)) => status_in(a.registers[r.index()]),
        _ => None,
    }
}

/// What an instruction does.
fn instruction_uses(machine: &Checked, a: &Activation, instr: &Instr) -> UseStep
    ensures { result ≡ instruction_uses machine.now.set machine.now.world.shared a.now
        (Some instr.now) }
{
    match *instr {
        Instr::Mark(r) => match live_in(machine, a, r) {
            Some(n) => UseStep::Mark(n),
            None => UseStep::Nothing,
        },
        Instr::Call(r, _) => match (machine.set().lower(a.device), live_in(machine, a, r)) {
            (Some(_), Some(n)) => UseStep::Call(n),
            _ => UseStep::Nothing,
        },
        Instr::Ret(form) => match status_by(machine.set().sort(a.driver, a.routine), a, form) {
            Some(status) => UseStep::Return(status),
            None => UseStep::Nothing,
        },
        _ => UseStep::Nothing,
    }
}

/// What completion does when it has left a packet's current location.
fn onward_of(packet: &Packet) -> Onward
    ensures { result ≡ onward_of packet.now (completion_of (current_location packet.now)) }
{
    if packet.completion().is_some() {
        return Onward::Up;
    }
    if packet.depth() <= 1 {
        return Onward::Out;
    }
    if packet.is_marked() {
        Onward::UpMarked
    } else {
        Onward::Up
    }
}

/// What completion does next with a packet.
fn leaves_packet(machine: &Checked, n: u64) -> UseStep
    ensures { result ≡ leaves_packet n (packet_of machine.now.world.shared n) }
{
    match machine.shared().live_packet(n) {
        Some(packet) => UseStep::Leave(n, onward_of(packet)),
        None => UseStep::Nothing,
    }
}

/// What the next step of a frame does.
fn frame_uses(machine: &Checked, frame: &Frame) -> UseStep
    ensures { result ≡ frame_uses machine.now.set machine.now.world.shared (Some frame.now) }
{
    if let Some(a) = frame.activation() {
        return match instruction_at(machine.set(), a) {
            Some(instr) => instruction_uses(machine, a, &instr),
            None => UseStep::Nothing,
        };
    }
    match frame.completed_packet() {
        Some(n) => leaves_packet(machine, n),
        None => UseStep::Nothing,
    }
}

/// What an event does to uses of stack locations, before it is applied, if it isn't refused.
pub fn use_step(machine: &Checked, event: &Event) -> UseStep
    ensures { result ≡ use_step machine.now.set machine.now.world event.now }
{
    match *event {
        Event::Issue { .. } => UseStep::Issue(machine.shared().issued()),
        Event::Step { thread } => match top_frame(machine, thread) {
            Some(frame) => frame_uses(machine, frame),
            None => UseStep::Nothing,
        },
        _ => UseStep::Nothing,
    }
}

/// Whether the step of a frame that acts may do anything to uses.
fn may_use(acting: &Acting) -> bool
    ensures { result ≡ may_use acting.now.instruction }
{
    match acting.instruction {
        Some(instr) => matches!(instr, Instr::Mark(_) | Instr::Call(_, _) | Instr::Ret(_)),
        None => true,
    }
}

/// The same, by the frame that acts in the event, which was looked up before.
pub fn use_step_of(machine: &Checked, event: &Event, acting: &Option<Acting>) -> UseStep
    requires { acting.now ≡ acting_in machine.now.set machine.now.world event.now }
    ensures { result ≡ use_step machine.now.set machine.now.world event.now }
{
    match acting {
        Some(acting) if !may_use(acting) => UseStep::Nothing,
        _ => use_step(machine, event),
    }
}
