//! Steps of a routine.

ghost use Rattle.std.specs.Prelude.{◌≡◌, ◌<◌, if◌then◌else◌};
ghost use Rattle.model.specs.declared.limits.TheConstants.{MAX_INSTRUCTIONS};
ghost use Rattle.checked.specs.Instruction.{instruction_now};
ghost use Rattle.checked_parts.specs.Left.{frame_now};
ghost use Rattle.checked_parts.specs.Ran.{left_of, wrong_reply, LeavesOver};
ghost use Rattle.model.specs.declared.world.Frame.TheVariants.{Routine as RoutineFrame};
ghost use Rattle.model.specs.Effect.{return_effect, top_of};
ghost use Rattle.model.specs.Set.{sort_of};
ghost use Rattle.model.specs.World.{at_label, next, with_register};

use crate::local;
use checked_parts::shared::locks::spin_lock;
use checked_parts::{Frame, Ran, Runner, Shared, status_in, wrong_at};
use driver_set::{DriverSet, Instr, Register, Return, Sort};
use model::event::{Lock, Reply};
use model::world::{Activation, Value};

/// `ret ..`: the routine returns, in a form of its sort. It stands over the frames `below`.
fn leave(set: &DriverSet, shared: &mut Shared, below: &[Frame], a: &Activation, form: Return) -> Ran
    ensures { let sort = sort_of set.now a.now.driver a.now.routine in
        let returned = return_effect shared.old a.now (top_of below.now) sort form in
        LeavesOver below.now shared.old a.now returned shared.new a.now result }
{
    match (set.sort(a.driver, a.routine), form) {
        (Sort::Dispatch, Return::WithStatus(status)) => Ran::Returned(status),
        (Sort::Dispatch, Return::Lower(r)) => match status_in(a.registers[r.index()]) {
            Some(status) => Ran::Returned(status),
            None => Ran::Stays(wrong_at(a)),
        },
        (Sort::StartIo | Sort::Dpc | Sort::Cancel, Return::Void) => Ran::Gone(Reply::Stepped),
        (Sort::Propagate, Return::Continue) => shared.go_on(below),
        (Sort::Hold, Return::Continue) => shared.give_back(below),
        (Sort::Propagate, Return::Stop) => shared.stop(below),
        (Sort::Hold, Return::Stop) => shared.stop(below),
        _ => Ran::Stays(wrong_at(a)),
    }
}

/// The register becomes this value.
fn assign(r: Register, value: Value, a: &mut Activation) -> Ran
    requires { a.old.position < MAX_INSTRUCTIONS }
    ensures activation { a.new ≡ next (with_register a.old r value) }
    ensures ran { result ≡ Ran.Stays Reply.Stepped }
{
    local::set(r, value, a);
    Ran::Stays(Reply::Stepped)
}

/// Goes to the label.
fn jump(label: u16, a: &mut Activation) -> Ran
    ensures activation { a.new ≡ at_label a.old label }
    ensures ran { result ≡ Ran.Stays Reply.Stepped }
{
    local::jump(label, a);
    Ran::Stays(Reply::Stepped)
}

/// What an instruction leaves that changes nothing but its activation: it was made, or is wrong.
fn made(made: bool, a: &Activation) -> Ran
    ensures { result ≡ Ran.Stays (if made then Reply.Stepped else wrong_reply a.now) }
{
    if made {
        Ran::Stays(Reply::Stepped)
    } else {
        Ran::Stays(wrong_at(a))
    }
}

/// Executes one instruction of a thread's routine, which stands over the frames `below`.
fn execute(
    set: &DriverSet,
    shared: &mut Shared,
    runner: Runner,
    below: &[Frame],
    a: &mut Activation,
    instruction: Instr,
) -> Ran
    requires { a.old.position < MAX_INSTRUCTIONS }
    ensures { left_of shared.new (RoutineFrame a.new) result
        ≡ instruction_now set.now shared.old runner below.now a.old instruction }
{
    match instruction {
        Instr::Const(r, number) => assign(r, Value::Num(u64::from(number)), a),
        Instr::Move(r, s) => assign(r, a.registers[s.index()], a),
        Instr::Clear(r) => assign(r, Value::Blank, a),
        Instr::Add(r, s) => made(local::add(r, s, a), a),
        Instr::Subtract(r, s) => made(local::subtract(r, s, a), a),
        Instr::JumpIfZero(r, label) => made(local::jump_if_zero(r, label, a), a),
        Instr::JumpIfLess(r, s, label) => made(local::jump_if_less(r, s, label, a), a),
        Instr::Jump(label) => jump(label, a),
        Instr::Loop(turns) => made(local::open_loop(turns, a), a),
        Instr::End => made(local::end_turn(a), a),
        Instr::Load(r, cell) => shared.load(r, cell, a),
        Instr::Store(cell, r) => shared.store(cell, r, a),
        Instr::LoadPaged(r, cell) => shared.load_paged(runner, r, cell, a),
        Instr::StorePaged(cell, r) => shared.store_paged(runner, cell, r, a),
        Instr::Get(r, s, field) => shared.get(r, s, field, a),
        Instr::Put(s, r) => shared.put(s, r, a),
        Instr::Mark(r) => shared.mark(r, a),
        Instr::Acquire(lock) => shared.acquire(runner, spin_lock(a, lock), a),
        Instr::Release(lock) => shared.release(runner, spin_lock(a, lock), a),
        Instr::AcquireCancel => shared.acquire(runner, Lock::SystemCancel, a),
        Instr::ReleaseCancel => shared.release(runner, Lock::SystemCancel, a),
        Instr::Insert(r, q) => shared.insert(r, q, a),
        Instr::Remove(r, q, label) => shared.remove(r, q, label, a),
        Instr::Unlink(r, q) => shared.unlink(r, q, a),
        Instr::Arm(r, q) => shared.arm(set, r, q, a),
        Instr::Disarm(r, label) => shared.disarm(r, label, a),
        Instr::IfCancel(r, label) => shared.jump_if_cancelled(r, label, a),
        Instr::Start(r) => shared.start(set, r, a),
        Instr::Take(r, label) => shared.take(r, label, a),
        Instr::Begin(r) => shared.begin(r, a),
        Instr::Next => shared.start_next(set, a),
        Instr::Dequeue(r) => shared.dequeue(r, a),
        Instr::Pass(r) => shared.pass(set, below, r, a),
        Instr::Call(r, routine) => shared.call(set, below, r, routine, a),
        Instr::IfPending(r, label) => shared.jump_if_pending(r, label, a),
        Instr::Complete(r, status) => shared.complete(below, r, status, a),
        Instr::Ret(form) => leave(set, shared, below, a, form),
    }
}

/// Executes the instruction at the position of a thread's routine, which stands over the frames
/// `below`.
pub fn step(
    set: &DriverSet,
    shared: &mut Shared,
    runner: Runner,
    below: &[Frame],
    a: &mut Activation,
) -> Ran
    ensures { left_of shared.new (RoutineFrame a.new) result
        ≡ frame_now set.now shared.old runner below.now (RoutineFrame a.old) }
{
    match set.instruction(a.driver, a.routine, a.position) {
        Some(instruction) => execute(set, shared, runner, below, a, instruction),
        None => Ran::Stays(wrong_at(a)),
    }
}
