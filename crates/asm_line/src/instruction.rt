//! The instructions of a driver text, each by its word and what stands behind it.

ghost use Rattle.std.specs.Prelude.{IfSome};
ghost use Rattle.model.specs.Sound.{OperandFits};
ghost use Rattle.asm_line.specs.Cursor.{Reads};
ghost use Rattle.model.specs.InstructionForm.{cell_forms, packet_forms, queue_forms};
ghost use Rattle.asm_line.specs.Instruction.{in_forms, instruction};
ghost use Rattle.asm_line.specs.Line.{QueueNoted};

use crate::cursor::Cursor;
use model::instr::Instr;
use text::class::is;

/// What an instruction's word and the tokens behind it say.
pub fn instruction(word: &[u8], at: &mut Cursor<'_>) -> Option<Instr>
    ensures read { Reads result at.new (instruction word.now at.old) }
    ensures fits { IfSome result OperandFits }
    ensures noted { IfSome result (QueueNoted at.new.used) }
{
    if is(word, b"const") {
        return Some(Instr::Const(at.register()?, at.constant()?));
    }
    if is(word, b"mov") {
        return Some(Instr::Move(at.register()?, at.register()?));
    }
    if is(word, b"clear") {
        return Some(Instr::Clear(at.register()?));
    }
    if is(word, b"add") {
        return Some(Instr::Add(at.register()?, at.register()?));
    }
    if is(word, b"sub") {
        return Some(Instr::Subtract(at.register()?, at.register()?));
    }
    if is(word, b"jz") {
        return Some(Instr::JumpIfZero(at.register()?, at.label()?));
    }
    if is(word, b"jlt") {
        return Some(Instr::JumpIfLess(at.register()?, at.register()?, at.label()?));
    }
    if is(word, b"jmp") {
        return Some(Instr::Jump(at.label()?));
    }
    if is(word, b"loop") {
        return Some(Instr::Loop(at.turns()?));
    }
    on_cells(word, at)
}

/// What is done with the device's cells and a packet's fields, its locks and queues, or packets.
fn on_cells(word: &[u8], at: &mut Cursor<'_>) -> Option<Instr>
    ensures read { Reads result at.new (in_forms cell_forms word.now at.old) }
    ensures fits { IfSome result OperandFits }
    ensures noted { IfSome result (QueueNoted at.new.used) }
{
    if is(word, b"end") {
        return Some(Instr::End);
    }
    if is(word, b"load") {
        return Some(Instr::Load(at.register()?, at.cell()?));
    }
    if is(word, b"store") {
        return Some(Instr::Store(at.cell()?, at.register()?));
    }
    if is(word, b"loadp") {
        return Some(Instr::LoadPaged(at.register()?, at.paged_cell()?));
    }
    if is(word, b"storep") {
        return Some(Instr::StorePaged(at.paged_cell()?, at.register()?));
    }
    if is(word, b"get") {
        return Some(Instr::Get(at.register()?, at.register()?, at.field()?));
    }
    if is(word, b"put") {
        return Some(Instr::Put(at.register()?, at.register()?));
    }
    if is(word, b"mark") {
        return Some(Instr::Mark(at.register()?));
    }
    on_queues(word, at)
}

/// What is done with the device's locks and queues, or with packets.
fn on_queues(word: &[u8], at: &mut Cursor<'_>) -> Option<Instr>
    ensures read { Reads result at.new (in_forms queue_forms word.now at.old) }
    ensures fits { IfSome result OperandFits }
    ensures noted { IfSome result (QueueNoted at.new.used) }
{
    if is(word, b"acquire") {
        return Some(Instr::Acquire(at.spin_lock()?));
    }
    if is(word, b"release") {
        return Some(Instr::Release(at.spin_lock()?));
    }
    if is(word, b"acqc") {
        return Some(Instr::AcquireCancel);
    }
    if is(word, b"relc") {
        return Some(Instr::ReleaseCancel);
    }
    if is(word, b"insert") {
        return Some(Instr::Insert(at.register()?, at.queue()?));
    }
    if is(word, b"remove") {
        return Some(Instr::Remove(at.register()?, at.queue()?, at.label()?));
    }
    if is(word, b"unlink") {
        return Some(Instr::Unlink(at.register()?, at.queue()?));
    }
    if is(word, b"arm") {
        return Some(Instr::Arm(at.register()?, at.queue()?));
    }
    if is(word, b"disarm") {
        return Some(Instr::Disarm(at.register()?, at.label()?));
    }
    on_packets(word, at)
}

/// What is done with packets.
fn on_packets(word: &[u8], at: &mut Cursor<'_>) -> Option<Instr>
    ensures read { Reads result at.new (in_forms packet_forms word.now at.old) }
    ensures fits { IfSome result OperandFits }
    ensures noted { IfSome result (QueueNoted at.new.used) }
{
    if is(word, b"ifcancel") {
        return Some(Instr::IfCancel(at.register()?, at.label()?));
    }
    if is(word, b"start") {
        return Some(Instr::Start(at.register()?));
    }
    if is(word, b"take") {
        return Some(Instr::Take(at.register()?, at.label()?));
    }
    if is(word, b"begin") {
        return Some(Instr::Begin(at.register()?));
    }
    if is(word, b"next") {
        return Some(Instr::Next);
    }
    if is(word, b"pass") {
        return Some(Instr::Pass(at.register()?));
    }
    if is(word, b"call") {
        return Some(Instr::Call(at.register()?, at.called()?));
    }
    if is(word, b"complete") {
        return Some(Instr::Complete(at.register()?, at.status()?));
    }
    if is(word, b"ifpending") {
        return Some(Instr::IfPending(at.register()?, at.label()?));
    }
    if is(word, b"ret") {
        return Some(Instr::Ret(at.returned()?));
    }
    if is(word, b"dequeue") {
        return Some(Instr::Dequeue(at.register()?));
    }
    None
}
