//! What instructions do, as far as it counts where routines are read and edits are weighed. Each
//! instruction is named.

use driver_set::Instr;

/// What an instruction does.
#[derive(Clone, Copy, PartialEq, Eq)]
pub enum Act {
    /// It sets or uses numbers, or jumps on one.
    Number,
    /// It is the start of a loop.
    Loop,
    /// It is the end of a loop.
    End,
    /// It jumps, or returns: what stands behind it is not reached from it.
    Leave,
    /// It marks a packet.
    Mark,
    /// It acquires or releases a lock.
    Lock,
    /// It uses the device queue.
    Waiting,
    /// It uses a list, the current slot or the cancel routine of a packet, or completes it.
    Packet,
    /// It sends a packet down.
    Down,
}

/// What an instruction does.
pub fn act_of(instr: &Instr) -> Act {
    match *instr {
        Instr::Const(..)
        | Instr::Move(..)
        | Instr::Clear(_)
        | Instr::Add(..)
        | Instr::Subtract(..)
        | Instr::JumpIfZero(..)
        | Instr::JumpIfLess(..)
        | Instr::Load(..)
        | Instr::Store(..)
        | Instr::LoadPaged(..)
        | Instr::StorePaged(..)
        | Instr::Get(..)
        | Instr::Put(..)
        | Instr::IfPending(..) => Act::Number,
        Instr::Loop(_) => Act::Loop,
        Instr::End => Act::End,
        Instr::Jump(_) | Instr::Ret(_) => Act::Leave,
        Instr::Mark(_) => Act::Mark,
        Instr::Acquire(_) | Instr::Release(_) | Instr::AcquireCancel | Instr::ReleaseCancel =>
            Act::Lock,
        Instr::Start(_) | Instr::Next | Instr::Dequeue(_) => Act::Waiting,
        Instr::Insert(..)
        | Instr::Remove(..)
        | Instr::Unlink(..)
        | Instr::Arm(..)
        | Instr::Disarm(..)
        | Instr::IfCancel(..)
        | Instr::Take(..)
        | Instr::Begin(_)
        | Instr::Complete(..) => Act::Packet,
        Instr::Pass(_) | Instr::Call(..) => Act::Down,
    }
}

/// Whether an instruction jumps or returns, so that what stands behind it is not reached from it.
pub fn leaves(instr: &Instr) -> bool {
    act_of(instr) == Act::Leave
}
