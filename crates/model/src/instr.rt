//! The instructions of a routine.

ghost use Rattle.std.specs.Prelude.{◌≡◌};

pub use crate::cell::Cell;
pub use crate::register::Register;
pub use crate::spin_lock::SpinLock;
use crate::status::Status;
pub use crate::turns::Turns;

/// What `get` reads of a packet.
#[derive(Clone, Copy)]
pub enum Field {
    /// The major function of the current location, by its IRP_MJ number.
    Major,
    /// The argument of the current location.
    Argument,
    /// IoStatus.Information.
    Info,
}

/// What a routine returns.
#[derive(Clone, Copy)]
pub enum Return {
    /// A status of its own: `ret STATUS`.
    WithStatus(Status),
    /// The status in the register, which a lower driver returned: `ret lower r`.
    Lower(Register),
    /// STATUS_CONTINUE_COMPLETION: `ret continue`.
    Continue,
    /// STATUS_MORE_PROCESSING_REQUIRED: `ret stop`.
    Stop,
    /// Nothing: `ret void`.
    Void,
}

/// One instruction. A label is a position of the same routine.
#[derive(Clone, Copy)]
pub enum Instr {
    /// `const r n`: the register becomes the number.
    Const(Register, u32),
    /// `mov r s`: r becomes what s is.
    Move(Register, Register),
    /// `clear r`: the register becomes blank.
    Clear(Register),
    /// `add r s`: r becomes the sum, modulo 2^64.
    Add(Register, Register),
    /// `sub r s`: r becomes the difference, modulo 2^64.
    Subtract(Register, Register),
    /// `jz r L`: jumps if r is 0.
    JumpIfZero(Register, u16),
    /// `jlt r s L`: jumps if r is less than s.
    JumpIfLess(Register, Register, u16),
    /// `jmp L`: jumps.
    Jump(u16),
    /// `loop n`: what follows, up to the `end` that closes the loop, runs n times.
    Loop(Turns),
    /// `end`: goes back to the start of the innermost loop's body, or closes the loop.
    End,
    /// `load r c`: the register becomes the number in a cell of the device.
    Load(Register, Cell),
    /// `store c r`: the cell becomes the number in the register.
    Store(Cell, Register),
    /// `loadp r p`: as `load`, from a paged cell.
    LoadPaged(Register, Cell),
    /// `storep p r`: as `store`, to a paged cell.
    StorePaged(Cell, Register),
    /// `get r s F`: r becomes a field of the packet in s.
    Get(Register, Register, Field),
    /// `put s r`: IoStatus.Information of the packet in s becomes the number in r.
    Put(Register, Register),
    /// `mark r`: IoMarkIrpPending on the packet in the register.
    Mark(Register),
    /// `acquire l`: KeAcquireSpinLock on a lock of the device.
    Acquire(SpinLock),
    /// `release l`: KeReleaseSpinLock on a lock of the device.
    Release(SpinLock),
    /// `acqc`: IoAcquireCancelSpinLock.
    AcquireCancel,
    /// `relc`: IoReleaseCancelSpinLock.
    ReleaseCancel,
    /// `insert r q`: the packet goes to the back of the device's queue of this number.
    Insert(Register, u8),
    /// `remove r q L`: the register becomes the first packet of the queue, which is taken off;
    /// where the queue is empty, it jumps to the label.
    Remove(Register, u8, u16),
    /// `unlink r q`: the packet is taken off the queue, wherever it stands there.
    Unlink(Register, u8),
    /// `arm r q`: IoSetCancelRoutine with the cancel routine of the queue.
    Arm(Register, u8),
    /// `disarm r L`: IoSetCancelRoutine with none; jumps where none was set.
    Disarm(Register, u16),
    /// `ifcancel r L`: jumps if Irp->Cancel is set.
    IfCancel(Register, u16),
    /// `start r`: IoStartPacket.
    Start(Register),
    /// `take r L`: the register becomes the packet in the current slot, which is taken out of it;
    /// where the slot is empty, it jumps to the label.
    Take(Register, u16),
    /// `begin r`: the packet becomes the device's current one: it is put into the current slot.
    Begin(Register),
    /// `next`: IoStartNextPacket.
    Next,
    /// `dequeue r`: the packet is taken off the device queue, wherever it stands there.
    Dequeue(Register),
    /// `pass r`: IoSkipCurrentIrpStackLocation and IoCallDriver for the lower device, which is
    /// asked in the caller's own location.
    Pass(Register),
    /// `call r` and `call r f`: IoCopyCurrentIrpStackLocationToNext, IoSetCompletionRoutine with
    /// the routine of this number where there is one, and IoCallDriver for the lower device.
    Call(Register, Option<u8>),
    /// `complete r STATUS`: IoCompleteRequest on the packet in the register.
    Complete(Register, Status),
    /// `ifpending r L`: jumps if Irp->PendingReturned is set.
    IfPending(Register, u16),
    /// `ret ..`: the routine returns.
    Ret(Return),
}

impl Instr {
    ghost use Rattle.model.specs.Set.{label_of};

    /// The label of a jump.
    pub fn label(&self) -> Option<u16>
        ensures { result ≡ label_of self.now }
    {
        match *self {
            Instr::JumpIfZero(_, label)
            | Instr::JumpIfLess(_, _, label)
            | Instr::Jump(label)
            | Instr::Remove(_, _, label)
            | Instr::Disarm(_, label)
            | Instr::IfCancel(_, label)
            | Instr::Take(_, label)
            | Instr::IfPending(_, label) => Some(label),
            _ => None,
        }
    }
}
