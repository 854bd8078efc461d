//! What instructions do, as far as rules are told by it. Each instruction is named here, and the
//! words go by groups of them.

use model::instr::{Instr, Return};
use model::set::{Guard, QueueName};

/// What an instruction does.
#[derive(Clone, Copy)]
pub enum Act {
    /// It has to do with no packet or lock.
    Plain(Plain),
    /// It looks at a packet, or writes a field of it.
    Look,
    Mark(Marking),
    Lock(Locking),
    Queue(Queueing),
    Device(Waiting),
    Send(Sending),
    Return(Return),
}

/// What is done with registers, cells and positions.
#[derive(Clone, Copy)]
pub enum Plain {
    /// Numbers are made or used, or it jumps.
    Number,
    /// What a register has is moved to the one of this number.
    Move(usize),
    Clear,
    /// A loop begins that turns so often.
    Loop(u16),
    End,
}

/// What is done with pending marks.
#[derive(Clone, Copy)]
pub enum Marking {
    Mark,
    /// It looks whether a mark is to be carried up.
    Look,
}

/// What is done with a lock.
#[derive(Clone, Copy)]
pub enum Locking {
    Acquire(Guard),
    Release(Guard),
}

/// What is done with a packet of a queue, which has this number.
#[derive(Clone, Copy)]
pub enum Queueing {
    Insert(u8),
    Remove(u8),
    Unlink(u8),
    Arm(u8),
    Disarm,
}

/// What is done with the current packet of a device, or with those that wait for it.
#[derive(Clone, Copy)]
pub enum Waiting {
    Start,
    Take,
    Begin,
    Next,
    Dequeue,
}

/// How a packet leaves the routine, down or up.
#[derive(Clone, Copy)]
pub enum Sending {
    Pass,
    /// Whether it is with a routine that may hold the packet.
    Call(bool),
    Complete,
}

/// What an instruction does.
pub fn act_of(instr: &Instr) -> Act {
    match *instr {
        Instr::Const(..)
        | Instr::Add(..)
        | Instr::Subtract(..)
        | Instr::JumpIfZero(..)
        | Instr::JumpIfLess(..)
        | Instr::Jump(_)
        | Instr::Load(..)
        | Instr::Store(..)
        | Instr::LoadPaged(..)
        | Instr::StorePaged(..) => Act::Plain(Plain::Number),
        Instr::Move(to, _) => Act::Plain(Plain::Move(to.index())),
        Instr::Clear(_) => Act::Plain(Plain::Clear),
        Instr::Loop(turns) => Act::Plain(Plain::Loop(turns.count())),
        Instr::End => Act::Plain(Plain::End),
        Instr::Get(..) | Instr::Put(..) | Instr::IfCancel(..) => Act::Look,
        Instr::Mark(_) => Act::Mark(Marking::Mark),
        Instr::IfPending(..) => Act::Mark(Marking::Look),
        Instr::Acquire(lock) => Act::Lock(Locking::Acquire(Guard::DeviceLock(lock))),
        Instr::Release(lock) => Act::Lock(Locking::Release(Guard::DeviceLock(lock))),
        Instr::AcquireCancel => Act::Lock(Locking::Acquire(Guard::CancelLock)),
        Instr::ReleaseCancel => Act::Lock(Locking::Release(Guard::CancelLock)),
        Instr::Insert(_, queue) => Act::Queue(Queueing::Insert(queue)),
        Instr::Remove(_, queue, _) => Act::Queue(Queueing::Remove(queue)),
        Instr::Unlink(_, queue) => Act::Queue(Queueing::Unlink(queue)),
        Instr::Arm(_, queue) => Act::Queue(Queueing::Arm(queue)),
        Instr::Disarm(..) => Act::Queue(Queueing::Disarm),
        Instr::Start(_) => Act::Device(Waiting::Start),
        Instr::Take(..) => Act::Device(Waiting::Take),
        Instr::Begin(_) => Act::Device(Waiting::Begin),
        Instr::Next => Act::Device(Waiting::Next),
        Instr::Dequeue(_) => Act::Device(Waiting::Dequeue),
        Instr::Pass(_) => Act::Send(Sending::Pass),
        Instr::Call(_, routine) => Act::Send(Sending::Call(routine.is_some())),
        Instr::Complete(..) => Act::Send(Sending::Complete),
        Instr::Ret(form) => Act::Return(form),
    }
}

/// The lock that an instruction acquires or releases.
pub(crate) fn lock_of(instr: &Instr) -> Option<Guard> {
    match act_of(instr) {
        Act::Lock(Locking::Acquire(lock) | Locking::Release(lock)) => Some(lock),
        Act::Plain(_)
        | Act::Look
        | Act::Mark(_)
        | Act::Queue(_)
        | Act::Device(_)
        | Act::Send(_)
        | Act::Return(_) => None,
    }
}

/// The list that an instruction touches, if it touches one.
pub fn list_of(instr: &Instr) -> Option<QueueName> {
    match act_of(instr) {
        Act::Queue(queueing) => queue_of(queueing),
        Act::Device(Waiting::Start | Waiting::Next | Waiting::Dequeue) => {
            Some(QueueName::DeviceQueue)
        }
        Act::Device(Waiting::Take | Waiting::Begin)
        | Act::Plain(_)
        | Act::Look
        | Act::Mark(_)
        | Act::Lock(_)
        | Act::Send(_)
        | Act::Return(_) => None,
    }
}

/// The queue whose list is touched, if one is.
fn queue_of(queueing: Queueing) -> Option<QueueName> {
    match queueing {
        Queueing::Insert(queue)
        | Queueing::Remove(queue)
        | Queueing::Unlink(queue)
        | Queueing::Arm(queue) => Some(QueueName::Declared(queue)),
        Queueing::Disarm => None,
    }
}
