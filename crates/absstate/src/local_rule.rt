//! The local rule: what an instruction demands of the state before it, and the states after it.

ghost use Rattle.std.specs.Prelude.{◌≡◌, option_map};
ghost use Rattle.model.specs.LocalRule.{local_rule, refuses, handed, handed_at_label, outs};
ghost use Rattle.model.specs.LocalRule.{with_kind};
ghost use Rattle.model.specs.Set.{label_of};

use crate::cancel::{
    acquire_fault, arm_fault, dequeue_fault, disarm, disarm_fault, insert, release, release_fault,
    remove, remove_fault, unlink_fault,
};
use crate::fault::{
    complete_fault, free_fault, least, level_fault, look_fault, mark_fault, number_fault,
    packet_fault,
};
use crate::forwarding::{call_fault, pass_fault};
use crate::queues::{begin_fault, insert_fault, next_fault, start_fault, take_fault};
use crate::returns::return_fault;
use crate::state::kind;
use crate::tracked::{
    Tracked, begin, complete, give_down, mark, move_kind, set_held, set_kind, take,
};
use driver_set::DriverSet;
use model::abs::{Abs, Kind, Outs, Rule, Settled, Stage};
use model::instr::{Instr, Register};
use model::set::{Guard, QueueName, Sort};

/// The states that an instruction of a routine of a sort, of a driver of a set, hands on from a
/// state, or the least rule that it breaks in it.
pub fn transfer(
    state: &Abs,
    instr: &Instr,
    sort: Sort,
    set: &DriverSet,
    driver: u8,
) -> Result<Outs, Rule>
    ensures { result ≡ local_rule state.now instr.now sort set.now driver }
{
    let tracked = Tracked::of(*state);
    match broken_rule(&tracked, instr, sort, set, driver) {
        Some(rule) => Err(rule),
        None => Ok(outs_after(&tracked, instr, set, driver)),
    }
}

/// The least rule that an instruction breaks in a state.
pub fn broken_rule(
    tracked: &Tracked,
    instr: &Instr,
    sort: Sort,
    set: &DriverSet,
    driver: u8,
) -> Option<Rule>
    ensures { result ≡ refuses tracked.now instr.now sort set.now driver }
{
    let state = tracked.state();
    match *instr {
        Instr::Const(to, _) | Instr::Move(to, _) | Instr::Clear(to) | Instr::Load(to, _) => {
            free_fault(state, to)
        }
        Instr::Add(first, second)
        | Instr::Subtract(first, second)
        | Instr::JumpIfLess(first, second, _) => {
            least(number_fault(state, first), number_fault(state, second))
        }
        Instr::JumpIfZero(register, _) | Instr::Store(_, register) => number_fault(state, register),
        Instr::Jump(_) | Instr::Loop(_) | Instr::End => None,
        Instr::LoadPaged(to, _) => least(level_fault(state, sort), free_fault(state, to)),
        Instr::StorePaged(_, from) => least(number_fault(state, from), level_fault(state, sort)),
        Instr::Get(to, packet, _) => least(packet_fault(state, packet), free_fault(state, to)),
        Instr::Put(packet, from) => least(packet_fault(state, packet), number_fault(state, from)),
        Instr::Mark(register) => mark_fault(state.settled, kind(state, register)),
        Instr::Acquire(lock) => acquire_fault(state, &Guard::DeviceLock(lock)),
        Instr::Release(lock) => release_fault(tracked, set, driver, &Guard::DeviceLock(lock)),
        Instr::AcquireCancel => acquire_fault(state, &Guard::CancelLock),
        Instr::ReleaseCancel => release_fault(tracked, set, driver, &Guard::CancelLock),
        Instr::Insert(register, queue) => insert_fault(state, register, set, driver, queue),
        Instr::Remove(to, queue, _) => remove_fault(state, to, set, driver, queue),
        Instr::Unlink(register, queue) => unlink_fault(state, register, set, driver, queue),
        Instr::Arm(register, queue) => arm_fault(state, register, set, driver, queue),
        Instr::Disarm(register, _) => disarm_fault(kind(state, register)),
        Instr::IfCancel(register, _) => packet_fault(state, register),
        Instr::Start(register) => start_fault(state, register, set, driver),
        Instr::Take(to, _) => take_fault(state, to, sort),
        Instr::Begin(register) => begin_fault(state, register),
        Instr::Next => next_fault(state, set, driver),
        Instr::Dequeue(register) => dequeue_fault(state, register, set, driver),
        Instr::Pass(register) => pass_fault(state, register, sort, set, driver),
        Instr::Call(register, completion) => {
            call_fault(state, register, completion, sort, set, driver)
        }
        Instr::Complete(register, status) => complete_fault(state, register, status, sort),
        Instr::IfPending(register, _) => look_fault(state.settled, kind(state, register)),
        Instr::Ret(form) => return_fault(state, &form, sort),
    }
}

/// The states that an instruction hands on, where it breaks no rule.
fn outs_after(tracked: &Tracked, instr: &Instr, set: &DriverSet, driver: u8) -> Outs
    ensures { result ≡ outs set.now driver tracked.now instr.now }
{
    let jump = jumped(tracked, instr);
    match *instr {
        Instr::Jump(_) | Instr::Ret(_) => Outs { next: None, jump },
        _ => {
            let mut next = *tracked;
            advance(&mut next, instr, set, driver);
            Outs {
                next: Some(next.state),
                jump,
            }
        }
    }
}

/// The one at the label, if there is a label.
fn jumped(tracked: &Tracked, instr: &Instr) -> Option<Abs>
    ensures { result
        ≡ option_map (λ label. handed_at_label tracked.now instr.now) (label_of instr.now) }
{
    match instr.label() {
        Some(_) => Some(state_at_label(tracked, instr).state),
        None => None,
    }
}

/// Takes the state before an instruction of a driver of a set to the one at the next position.
pub fn advance(tracked: &mut Tracked, instr: &Instr, set: &DriverSet, driver: u8)
    ensures { tracked.new ≡ handed set.now driver tracked.old instr.now }
{
    match *instr {
        Instr::Const(to, _) | Instr::Load(to, _) | Instr::LoadPaged(to, _) | Instr::Get(to, _, _) =>
            { set_kind(tracked, to, Kind::Num) }
        Instr::Move(to, from) => move_kind(tracked, to, from),
        Instr::Clear(register) | Instr::Start(register) => set_kind(tracked, register, Kind::Blank),
        Instr::Insert(register, queue) => insert(tracked, register, set, driver, queue),
        Instr::Remove(to, queue, _) => remove(tracked, to, set, driver, queue),
        Instr::Unlink(register, _) | Instr::Dequeue(register) => {
            set_kind(tracked, register, Kind::Own)
        }
        Instr::Arm(register, queue) => {
            set_kind(
                tracked,
                register,
                Kind::Queued(QueueName::Declared(queue), Stage::Armed),
            )
        }
        Instr::Disarm(register, _) => disarm(tracked, register),
        Instr::Take(to, _) => take(tracked, to),
        Instr::Begin(register) => begin(tracked, register),
        Instr::Next => tracked.state.token = false,
        Instr::Mark(register) => mark(tracked, register),
        Instr::Acquire(lock) => set_held(tracked, &Guard::DeviceLock(lock), true),
        Instr::Release(lock) => release(tracked, set, driver, &Guard::DeviceLock(lock)),
        Instr::AcquireCancel => set_held(tracked, &Guard::CancelLock, true),
        Instr::ReleaseCancel => release(tracked, set, driver, &Guard::CancelLock),
        Instr::Pass(register) | Instr::Call(register, _) => give_down(tracked, register),
        Instr::Complete(register, _) => complete(tracked, register),
        Instr::IfPending(..) => tracked.state.settled = Settled::Settled,
        _ => {}
    }
}

/// The state at the label, from the one before the instruction.
pub fn state_at_label(tracked: &Tracked, instr: &Instr) -> Tracked
    ensures { result ≡ handed_at_label tracked.now instr.now }
{
    match *instr {
        Instr::IfPending(..) => looked_at(*tracked),
        Instr::Remove(to, _, _) | Instr::Disarm(to, _) | Instr::Take(to, _) => {
            without(*tracked, to)
        }
        _ => *tracked,
    }
}

/// The state of a completion routine that has seen Irp->PendingReturned set.
fn looked_at(mut tracked: Tracked) -> Tracked
    ensures { result ≡ record tracked { settled = Settled.NeedMark } }
{
    tracked.state.settled = Settled::NeedMark;
    tracked
}

/// The state with nothing in a register: no packet was there to be put into it.
fn without(mut tracked: Tracked, register: Register) -> Tracked
    ensures { result ≡ with_kind tracked register Kind.Blank }
{
    set_kind(&mut tracked, register, Kind::Blank);
    tracked
}
