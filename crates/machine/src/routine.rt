//! Steps of a routine.

ghost use Rattle.std.specs.Prelude.{◌≡◌, ◌<◌};
ghost use Rattle.model.specs.declared.limits.TheConstants.{MAX_INSTRUCTIONS};
ghost use Rattle.machine_parts.specs.Left.{left_of};
ghost use Rattle.laws_slots.specs.WordsFit.{WordInstructionFits, ReturnFits, WordRoutineFits};
ghost use Rattle.laws_slots.specs.WordStep.{frame_step, instruction_step, is_walk, return_step};
ghost use Rattle.laws_slots.specs.WordStep.{top_frame};
ghost use Rattle.laws_slots.specs.Words.{WordRoutine};
ghost use Rattle.laws_slots.specs.Slots.{SlotShared};

use crate::locks::spin_lock;
use crate::{cells, forwarding, locks, packets, queues, starting};
use driver_set::{DriverSet, Instr, Return};
use laws_slots::WordActivation;
use machine_parts::{Frame, Managing, Ran, Shared, local, reading};
use model::event::Lock;

/// The I/O manager's frame below, which completes a packet, is gone too.
fn stop(below: &[Frame]) -> Ran
    ensures { (s : SlotShared) (a : WordActivation) → left_of s (WordRoutine a) result
        ≡ return_step s a (top_frame below.now) Return.Stop }
{
    match below.last() {
        Some(frame) if matches!(frame.manager(), Some(Managing::Completes(_))) => Ran::Stopped,
        _ => Ran::Ends,
    }
}

/// `ret ..`: the routine returns. It stands over the frames `below`.
fn leave(below: &[Frame], a: &WordActivation, form: Return) -> Ran
    requires { ReturnFits a.now form }
    ensures { (s : SlotShared) → left_of s (WordRoutine a.now) result
        ≡ return_step s a.now (top_frame below.now) form }
{
    match form {
        Return::WithStatus(status) => Ran::Returned(status),
        Return::Lower(r) => Ran::Returned(reading::status(a, r)),
        Return::Continue | Return::Void => Ran::Ends,
        Return::Stop => stop(below),
    }
}

/// Executes one instruction of a thread's routine, which stands over the frames `below`.
fn execute(
    set: &DriverSet,
    shared: &mut Shared,
    thread: u8,
    below: &[Frame],
    a: &mut WordActivation,
    instruction: Instr,
) -> Ran
    requires near { a.old.position < MAX_INSTRUCTIONS }
    requires fits { WordInstructionFits set.now shared.old thread a.old instruction }
    ensures { left_of shared.new (WordRoutine a.new) result
        ≡ instruction_step set.now shared.old thread (top_frame below.now) a.old instruction }
{
    match instruction {
        Instr::Const(r, number) => local::set(r, u64::from(number), a),
        Instr::Move(r, s) => local::set(r, a.registers[s.index()], a),
        Instr::Clear(_) => local::clear(a),
        Instr::Add(r, s) => local::add(r, s, a),
        Instr::Subtract(r, s) => local::subtract(r, s, a),
        Instr::JumpIfZero(r, label) => local::jump_if_zero(r, label, a),
        Instr::JumpIfLess(r, s, label) => local::jump_if_less(r, s, label, a),
        Instr::Jump(label) => a.position = label,
        Instr::Loop(turns) => local::open_loop(turns, a),
        Instr::End => local::end_turn(a),
        Instr::Load(r, cell) => cells::load(shared, r, cell, a),
        Instr::Store(cell, r) => cells::store(shared, cell, r, a),
        Instr::LoadPaged(r, cell) => cells::load_paged(shared, r, cell, a),
        Instr::StorePaged(cell, r) => cells::store_paged(shared, cell, r, a),
        Instr::Get(r, s, field) => packets::get(shared, r, s, field, a),
        Instr::Put(s, r) => packets::put(shared, s, r, a),
        Instr::Mark(r) => packets::mark(shared, r, a),
        Instr::Acquire(lock) => return locks::acquire(shared, thread, spin_lock(a, lock), a),
        Instr::Release(lock) => locks::release(shared, spin_lock(a, lock), a),
        Instr::AcquireCancel => return locks::acquire(shared, thread, Lock::SystemCancel, a),
        Instr::ReleaseCancel => locks::release(shared, Lock::SystemCancel, a),
        Instr::Insert(r, q) => queues::insert(shared, r, q, a),
        Instr::Remove(r, q, label) => queues::remove(shared, r, q, label, a),
        Instr::Unlink(r, q) => queues::unlink(shared, r, q, a),
        Instr::Arm(r, q) => packets::arm(shared, r, q, a),
        Instr::Disarm(r, label) => packets::disarm(shared, r, label, a),
        Instr::IfCancel(r, label) => packets::jump_if_cancelled(shared, r, label, a),
        Instr::Start(r) => starting::start(shared, set, r, a),
        Instr::Take(r, label) => starting::take(shared, r, label, a),
        Instr::Begin(r) => starting::begin(shared, r, a),
        Instr::Next => starting::start_next(shared, set, a),
        Instr::Dequeue(r) => starting::dequeue(shared, r, a),
        Instr::Pass(r) => return forwarding::pass(shared, set, r, a),
        Instr::Call(r, routine) => return forwarding::call(shared, set, r, routine, a),
        Instr::IfPending(r, label) => packets::jump_if_pending(shared, r, label, a),
        Instr::Complete(r, status) => return forwarding::complete(shared, r, status, a),
        Instr::Ret(form) => return leave(below, a, form),
    }
    Ran::Steps
}

/// Executes the instruction at the position of a thread's routine, over the frames `below`.
pub fn step(
    set: &DriverSet,
    shared: &mut Shared,
    thread: u8,
    below: &[Frame],
    a: &mut WordActivation,
) -> Ran
    requires { WordRoutineFits set.now shared.old thread a.old }
    ensures { left_of shared.new (WordRoutine a.new) result
        ≡ frame_step set.now shared.old thread (top_frame below.now) (WordRoutine a.old) }
{
    match set.instruction(a.driver, a.routine, a.position) {
        Some(instruction) => execute(set, shared, thread, below, a, instruction),
        None => unreachable!(),
    }
}
