//! Which frame acts in an event, where it stands, and the packet that its step is about.

ghost use Rattle.std.specs.Prelude.{◌≡◌, Some, option_and_then};
ghost use Rattle.model.specs.World.{packet_in, register};
ghost use Rattle.tell_uses.specs.Acting.{acting_by, acting_in, instruction_of, packet_at};
ghost use Rattle.tell_uses.specs.Acting.{packet_by, packet_register};

use crate::standing::{instruction_at, packet_in, top_frame};
use checked::Checked;
use checked_parts::{Frame, Managing};
use driver_set::{DriverSet, Instr, Register};
use model::event::Event;
use model::view::FrameView;
use model::world::Activation;

/// A frame that acts, before it does.
#[derive(Clone, Copy)]
pub struct Acting {
    /// What it is, and where it stands.
    pub frame: FrameView,
    /// The instruction there, if it is a routine's.
    pub instruction: Option<Instr>,
    /// The packet that its step is about, if it is about one.
    pub packet: Option<u64>,
}

/// The instruction at which a frame stands, if it is a routine's.
pub(crate) fn instruction_of(set: &DriverSet, frame: &Frame) -> Option<Instr>
    ensures { result ≡ instruction_of set.now frame.now }
{
    instruction_at(set, frame.activation()?)
}

/// The register with the packet that an instruction is about.
fn packet_register(instr: &Instr) -> Option<Register>
    ensures { result ≡ packet_register instr.now }
{
    match *instr {
        Instr::Get(_, r, _)
        | Instr::Put(r, _)
        | Instr::Mark(r)
        | Instr::Insert(r, _)
        | Instr::Unlink(r, _)
        | Instr::Arm(r, _)
        | Instr::Disarm(r, _)
        | Instr::IfCancel(r, _)
        | Instr::Start(r)
        | Instr::Begin(r)
        | Instr::Dequeue(r)
        | Instr::Pass(r)
        | Instr::Call(r, _)
        | Instr::Complete(r, _)
        | Instr::IfPending(r, _) => Some(r),
        _ => None,
    }
}

/// The packet in the register that an instruction is about.
fn packet_read(machine: &Checked, a: &Activation, instr: &Instr) -> Option<u64>
    ensures { result ≡ option_and_then (λ r. packet_in machine.now.world.shared (register a.now r))
        (packet_register instr.now) }
{
    let r = packet_register(instr)?;
    packet_in(machine, a.registers[r.index()])
}

/// The packet that a routine's instruction is about.
fn packet_by(machine: &Checked, a: &Activation, instr: &Instr) -> Option<u64>
    ensures { result ≡ packet_by machine.now.world.shared a.now (Some instr.now) }
{
    match *instr {
        Instr::Remove(_, queue, _) => machine.shared().queue(a.device, queue)?.head(),
        Instr::Take(_, _) => machine.shared().start_of(a.device)?.current(),
        Instr::Next => machine.shared().start_of(a.device)?.first_waiting(),
        _ => packet_read(machine, a, instr),
    }
}

/// The packet that the next step of a frame is about which stands at this instruction.
fn packet_at(machine: &Checked, frame: &Frame, instruction: &Option<Instr>) -> Option<u64>
    ensures { result ≡ packet_at machine.now.world.shared frame.now instruction.now }
{
    if let Some(a) = frame.activation() {
        return match instruction {
            Some(instr) => packet_by(machine, a, instr),
            None => None,
        };
    }
    match frame.manager()? {
        Managing::Completes(n) => Some(n),
        Managing::Cancels(canceller) => Some(canceller.packet),
    }
}

/// What is told of a frame that acts next.
fn acting_by(machine: &Checked, frame: &Frame) -> Acting
    ensures { result ≡ acting_by machine.now.set machine.now.world frame.now }
{
    let instruction = instruction_of(machine.set(), frame);
    let packet = packet_at(machine, frame, &instruction);
    Acting {
        frame: frame.view(),
        instruction,
        packet,
    }
}

/// The frame that acts in an event, before it is applied: in a step of a thread its top frame. In
/// every other event none does.
pub fn acting_in(machine: &Checked, event: &Event) -> Option<Acting>
    ensures { result ≡ acting_in machine.now.set machine.now.world event.now }
{
    match *event {
        Event::Step { thread } => {
            let top = top_frame(machine, thread)?;
            Some(acting_by(machine, top))
        }
        _ => None,
    }
}
