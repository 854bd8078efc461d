//! An event before it happens.

ghost use Rattle.std.specs.Prelude.{◌≡◌};
ghost use Rattle.tell_uses.specs.Acting.{acting_in};

use checked::Checked;
use checked_parts::status_in;
use model::event::Event;
use model::instr::{Instr, Return};
use model::status::Status;
use model::view::{FrameView, PacketView};
use tell_audit::refusal::{Reason, why_refused};
use tell_names::{top_activation, value_at};
use tell_uses::acting::{Acting, acting_in};
use tell_uses::standing::thread_of;

/// What is told of an event, as it is before the event.
#[derive(Clone, Copy)]
pub struct Moment {
    /// The frame that acts, if one does.
    pub acting: Option<Acting>,
    /// The packet that it is about, where words on it say how it was.
    pub packet: Option<PacketView>,
    /// Whether its step finds what it looks for, where it looks for something.
    pub found: Option<bool>,
    /// Why the event can't happen, if it can't.
    pub reason: Option<Reason>,
    /// The status that a lower driver returned, where its step returns that.
    pub returned: Option<Status>,
}

impl Moment {
    /// One before which nothing was looked at.
    pub fn nothing() -> Moment {
        Moment {
            acting: None,
            packet: None,
            found: None,
            reason: None,
            returned: None,
        }
    }

    /// The one before an event.
    pub fn before(machine: &Checked, event: &Event) -> Moment
        ensures { result.acting ≡ acting_in machine.now.set machine.now.world event.now }
    {
        let mut moment = Moment::nothing();
        moment.look(machine, event);
        moment.look_at_packet(machine);
        moment
    }

    /// Becomes the one before an event, but for the packet and what its step looks for.
    pub fn look(&mut self, machine: &Checked, event: &Event)
        ensures { self.new.acting ≡ acting_in machine.now.set machine.now.world event.now }
    {
        self.acting = acting_in(machine, event);
        self.packet = None;
        self.found = None;
        // Where a frame acts there is its thread, and a step needs nothing else.
        self.reason = match self.acting {
            Some(_) => None,
            None => why_refused(machine, event),
        };
        self.returned = match self.acting {
            Some(acting) => lower_status(machine, event, &acting),
            None => None,
        };
    }

    /// Looks at these too, which words tell of on steps that leave a frame where it stands.
    pub fn look_at_packet(&mut self, machine: &Checked)
        ensures { self.new.acting ≡ self.old.acting }
    {
        let Some(acting) = &self.acting else {
            return;
        };
        self.packet = packet_before(machine, acting);
        self.found = found_before(machine, acting);
    }
}

/// The status that a step returns which a lower driver returned, if it returns one.
fn lower_status(machine: &Checked, event: &Event, acting: &Acting) -> Option<Status> {
    let Some(Instr::Ret(Return::Lower(r))) = acting.instruction else {
        return None;
    };
    status_in(value_at(r, top_activation(machine, thread_of(event)?)?))
}

/// The packet that a step is about, if words on it say how the packet was before it.
fn packet_before(machine: &Checked, acting: &Acting) -> Option<PacketView> {
    let is_told = match acting.frame {
        FrameView::Routine { .. } => matches!(
            acting.instruction,
            Some(
                Instr::Mark(_)
                    | Instr::Arm(_, _)
                    | Instr::Disarm(_, _)
                    | Instr::IfCancel(_, _)
                    | Instr::Start(_)
                    | Instr::Next
            )
        ),
        FrameView::Walk(_) | FrameView::Cancel(_) => true,
    };
    match acting.packet {
        Some(n) if is_told => Some(machine.packet(n)),
        _ => None,
    }
}

/// Whether a step finds what it looks for: the packet in the list that it is taken off or in the
/// slot that it is put into, or a busy device where a packet is started.
fn found_before(machine: &Checked, acting: &Acting) -> Option<bool> {
    let FrameView::Routine { device, .. } = acting.frame else {
        return None;
    };
    let instruction = acting.instruction;
    let Some(instr) = instruction else {
        return None;
    };
    is_found(machine, device, instr, acting.packet)
}

/// Whether an instruction finds what it looks for, by the packet that it is about.
fn is_found(machine: &Checked, device: u8, instr: Instr, packet: Option<u64>) -> Option<bool> {
    let shared = machine.shared();
    match instr {
        Instr::Remove(_, _, _) => Some(packet.is_some()),
        Instr::Unlink(_, queue) => Some(shared.queue(device, queue)?.has(packet?)),
        Instr::Dequeue(_) => Some(shared.start_of(device)?.waiting().has(packet?)),
        Instr::Begin(_) => Some(shared.start_of(device)?.current() == packet),
        Instr::Start(_) | Instr::Next => Some(shared.start_of(device)?.is_busy()),
        Instr::Const(_, _)
        | Instr::Move(_, _)
        | Instr::Clear(_)
        | Instr::Add(_, _)
        | Instr::Subtract(_, _)
        | Instr::JumpIfZero(_, _)
        | Instr::JumpIfLess(_, _, _)
        | Instr::Jump(_)
        | Instr::Loop(_)
        | Instr::End
        | Instr::Load(_, _)
        | Instr::Store(_, _)
        | Instr::LoadPaged(_, _)
        | Instr::StorePaged(_, _)
        | Instr::Get(_, _, _)
        | Instr::Put(_, _)
        | Instr::Mark(_)
        | Instr::Acquire(_)
        | Instr::Release(_)
        | Instr::AcquireCancel
        | Instr::ReleaseCancel
        | Instr::Insert(_, _)
        | Instr::Arm(_, _)
        | Instr::Disarm(_, _)
        | Instr::IfCancel(_, _)
        | Instr::Take(_, _)
        | Instr::Pass(_)
        | Instr::Call(_, _)
        | Instr::Complete(_, _)
        | Instr::IfPending(_, _)
        | Instr::Ret(_) => None,
    }
}
