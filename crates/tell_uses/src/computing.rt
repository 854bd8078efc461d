//! Steps that only compute: of a routine at an instruction that moves, counts or tests what its
//! registers have, or reads or writes a cell or a field of a packet.

ghost use Rattle.std.specs.Prelude.{◌≡◌, IsTrue, Some, true};
ghost use Rattle.tell_uses.specs.Acting.{acting_in};
ghost use Rattle.tell_uses.specs.Computing.{computes, is_computing_at};
ghost use Rattle.tell_uses.specs.Plain.{is_plain};

use crate::acting::{Acting, instruction_of};
use crate::standing::top_frame;
use checked::Checked;
use driver_set::Instr;
use model::event::Event;

/// Whether an instruction is such a one.
pub fn is_computing_at(instr: &Instr) -> bool
    ensures { result ≡ is_computing_at (Some instr.now) }
{
    matches!(
        instr,
        Instr::Const(_, _)
            | Instr::Move(_, _)
            | Instr::Clear(_)
            | Instr::Add(_, _)
            | Instr::Subtract(_, _)
            | Instr::JumpIfZero(_, _)
            | Instr::JumpIfLess(_, _, _)
            | Instr::Jump(_)
            | Instr::Loop(_)
            | Instr::End
            | Instr::Load(_, _)
            | Instr::Store(_, _)
            | Instr::LoadPaged(_, _)
            | Instr::StorePaged(_, _)
            | Instr::Get(_, _, _)
            | Instr::Put(_, _)
            | Instr::IfPending(_, _)
    )
}

/// Whether what acts in an event stands at one.
pub fn only_computes(acting: &Option<Acting>) -> bool
    ensures { result ≡ computes acting.now }
{
    match acting {
        Some(acting) => match &acting.instruction {
            Some(instr) => is_computing_at(instr),
            None => false,
        },
        None => false,
    }
}

/// Whether an event is a step that only computes: if it is, it is a plain one.
pub fn computes(machine: &Checked, event: &Event) -> bool
    ensures computes { result
        ≡ computes (acting_in machine.now.set machine.now.world event.now) }
    ensures plain { IsTrue result
        → is_plain machine.now.set machine.now.world event.now ≡ true }
{
    let Event::Step { thread } = *event else {
        return false;
    };
    let Some(frame) = top_frame(machine, thread) else {
        return false;
    };
    match instruction_of(machine.set(), frame) {
        Some(instr) => is_computing_at(&instr),
        None => false,
    }
}
