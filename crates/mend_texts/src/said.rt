//! What instructions say beside their registers, cells, locks and labels. Each instruction is
//! named.

use driver_set::{Instr, Return};
use model::status::Status;

/// What an instruction says that has a name, or may be a guess.
#[derive(Clone, Copy)]
pub(crate) enum Said {
    Queue(u8),
    Routine(u8),
    Status(Status),
    Number(u32),
    Turns,
    Condition,
    Nothing,
}

/// What an instruction says that has a name, or may be a guess.
pub(crate) fn said_by(instr: &Instr) -> Said {
    match *instr {
        Instr::Insert(_, q) | Instr::Remove(_, q, _) | Instr::Unlink(_, q) | Instr::Arm(_, q) => {
            Said::Queue(q)
        }
        Instr::Call(_, Some(routine)) => Said::Routine(routine),
        Instr::Complete(_, status) | Instr::Ret(Return::WithStatus(status)) => Said::Status(status),
        Instr::Const(_, number) => Said::Number(number),
        Instr::Loop(_) => Said::Turns,
        Instr::JumpIfZero(..) | Instr::JumpIfLess(..) => Said::Condition,
        Instr::Move(..)
        | Instr::Clear(_)
        | Instr::Add(..)
        | Instr::Subtract(..)
        | Instr::Jump(_)
        | Instr::End
        | Instr::Load(..)
        | Instr::Store(..)
        | Instr::LoadPaged(..)
        | Instr::StorePaged(..)
        | Instr::Get(..)
        | Instr::Put(..)
        | Instr::Mark(_)
        | Instr::Acquire(_)
        | Instr::Release(_)
        | Instr::AcquireCancel
        | Instr::ReleaseCancel
        | Instr::Disarm(..)
        | Instr::IfCancel(..)
        | Instr::Start(_)
        | Instr::Take(..)
        | Instr::Begin(_)
        | Instr::Next
        | Instr::Dequeue(_)
        | Instr::Pass(_)
        | Instr::Call(_, None)
        | Instr::IfPending(..)
        | Instr::Ret(Return::Lower(_) | Return::Continue | Return::Stop | Return::Void) => {
            Said::Nothing
        }
    }
}
