//! The signs of events.

use model::event::{Event, Reply};
use model::instr::Instr;
use model::view::{FrameView, LiveView, PacketView};
use model::world::CancelStep;
use tell_changes::Moment;
use tell_uses::acting::Acting;

/// The sign of an event in its row.
#[derive(Clone, Copy, PartialEq, Eq)]
pub enum Sign {
    /// A frame acts, and nothing more is to be shown.
    Acts,
    /// IoMarkIrpPending.
    Mark,
    /// IoCompleteRequest.
    Complete,
    TopsOut,
    /// IoCancelIrp begins, or calls the cancel routine.
    Cancel,
    /// It sets Irp->Cancel.
    Flag,
    /// A cancel routine is set.
    Arm,
    /// It is set no more.
    Disarm,
    Acquire,
    Release,
    /// An interrupt queues a DPC.
    Interrupt,
    Refused,
    /// A bug check or a wrong operand.
    Stop,
}

impl Sign {
    /// Whether it stands on the line of the packet that the event is about.
    pub fn is_on_line(self) -> bool {
        matches!(
            self,
            Sign::Mark | Sign::Complete | Sign::TopsOut | Sign::Flag | Sign::Arm | Sign::Disarm
        )
    }
}

/// The sign of an event, by the moment before it and its reply.
pub fn sign_of(event: &Event, moment: &Moment, reply: &Reply) -> Sign {
    match *reply {
        Reply::Bug(_) | Reply::Wrong(_) => Sign::Stop,
        Reply::Refused => Sign::Refused,
        Reply::Topped { .. } => Sign::TopsOut,
        Reply::Waited | Reply::Idle => Sign::Acts,
        Reply::Started(_) | Reply::Stepped | Reply::Finished => match moment.acting {
            Some(acting) => sign_of_step(acting, moment.packet),
            None => sign_of_begin(event),
        },
    }
}

/// The sign of what begins.
fn sign_of_begin(event: &Event) -> Sign {
    match event {
        Event::Cancel { .. } => Sign::Cancel,
        Event::Interrupt { .. } => Sign::Interrupt,
        Event::Issue { .. } | Event::Dpc { .. } | Event::StartIo { .. } | Event::Step { .. } => {
            Sign::Acts
        }
    }
}

/// The sign of a frame's step, by the packet that it is about.
fn sign_of_step(acting: Acting, packet: Option<PacketView>) -> Sign {
    match acting.frame {
        FrameView::Walk(_) => Sign::Acts,
        FrameView::Cancel(canceller) => match canceller.next {
            CancelStep::Acquire => Sign::Acquire,
            CancelStep::SetFlag if matches!(packet, Some(PacketView::Live(_))) => Sign::Flag,
            CancelStep::SetFlag | CancelStep::Exchange => Sign::Cancel,
        },
        FrameView::Routine { .. } => match acting.instruction {
            Some(instr) => sign_of_instruction(&instr, is_armed(packet)),
            None => Sign::Acts,
        },
    }
}

/// Whether the cancel routine of a packet is set.
fn is_armed(packet: Option<PacketView>) -> bool {
    matches!(
        packet,
        Some(PacketView::Live(LiveView { armer: Some(_), .. }))
    )
}

/// The sign of an instruction's step, by whether the cancel routine of its packet is set before it.
fn sign_of_instruction(instr: &Instr, armed: bool) -> Sign {
    match *instr {
        Instr::Mark(_) => Sign::Mark,
        Instr::Complete(_, _) => Sign::Complete,
        Instr::Arm(_, _) => Sign::Arm,
        Instr::Disarm(_, _) if armed => Sign::Disarm,
        Instr::Acquire(_) | Instr::AcquireCancel => Sign::Acquire,
        Instr::Release(_) | Instr::ReleaseCancel => Sign::Release,
        Instr::Const(_, _)
        | Instr::Move(_, _)
        | Instr::Clear(_)
        | Instr::Add(_, _)
        | Instr::Subtract(_, _)
        | Instr::JumpIfZero(_, _)
        | Instr::JumpIfLess(_, _, _)
        | Instr::Jump(_)
        | Instr::Loop(_)
        | Instr::End
        | Instr::Load(_, _)
        | Instr::Store(_, _)
        | Instr::LoadPaged(_, _)
        | Instr::StorePaged(_, _)
        | Instr::Get(_, _, _)
        | Instr::Put(_, _)
        | Instr::Insert(_, _)
        | Instr::Remove(_, _, _)
        | Instr::Unlink(_, _)
        | Instr::Disarm(_, _)
        | Instr::IfCancel(_, _)
        | Instr::Start(_)
        | Instr::Take(_, _)
        | Instr::Begin(_)
        | Instr::Next
        | Instr::Dequeue(_)
        | Instr::Pass(_)
        | Instr::Call(_, _)
        | Instr::IfPending(_, _)
        | Instr::Ret(_) => Sign::Acts,
    }
}
