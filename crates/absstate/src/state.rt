//! Abstract states: the one at a routine's entry, their parts, and their equality.

ghost use Rattle.std.specs.Prelude.{◌≡◌, ◌↔◌, IsTrue, true, false};
ghost use Rattle.model.specs.LocalRule.{entry_of_sort, entry_of_cancel, entered_with};
ghost use Rattle.model.specs.LocalRule.{holds_guard, kind_of};
ghost use Rattle.std.specs.List.{list_any};
ghost use Rattle.absstate.specs.Same.{has_list, name_number, queue_number, shape};
ghost use Rattle.absstate.specs.Same.{same_queues, same_shapes};

use model::abs::{Abs, Duty, Kind, Settled, Stage};
use model::instr::Register;
use model::limits::{REGISTERS, SPIN_LOCKS};
use model::set::{Guard, QueueName, Sort};

/// The state in which a routine of a sort is entered, if it may be: it finds its packet in the
/// first register, but for a DPC routine, which is handed none. A StartIo routine has the token of
/// its device. A cancel routine is told the one list that names it, and can't be entered where
/// there is none.
pub fn entry_state(sort: Sort, named: Option<QueueName>) -> Option<Abs>
    ensures { result ≡ entry_of_sort sort named }
{
    match sort {
        Sort::Dispatch => Some(entered_with(Kind::New, Duty::Fresh, Settled::Settled, false)),
        Sort::StartIo => Some(entered_with(Kind::Own, Duty::NoDuty, Settled::Settled, true)),
        Sort::Dpc => Some(entered_with(Kind::Blank, Duty::NoDuty, Settled::Settled, false)),
        Sort::Propagate => Some(entered_with(Kind::View, Duty::NoDuty, Settled::Open, false)),
        Sort::Hold => Some(entered_with(Kind::New, Duty::Fresh, Settled::Settled, false)),
        Sort::Cancel => entry_of_cancel(named),
    }
}

/// A cancel routine is handed a packet of the list that names it, with the system cancel spin lock
/// held.
fn entry_of_cancel(named: Option<QueueName>) -> Option<Abs>
    ensures { result ≡ entry_of_cancel named }
{
    match named {
        Some(name) => {
            let first = Kind::Queued(name, Stage::Cancelling);
            let mut state = entered_with(first, Duty::NoDuty, Settled::Settled, false);
            state.cancel = true;
            Some(state)
        }
        None => None,
    }
}

fn entered_with(first: Kind, duty: Duty, settled: Settled, token: bool) -> Abs
    ensures { result ≡ entered_with first duty settled token }
{
    let mut kinds = [Kind::Blank; REGISTERS];
    kinds[0] = first;
    Abs {
        kinds,
        locks: [false; SPIN_LOCKS],
        cancel: false,
        duty,
        settled,
        token,
    }
}

/// Whether two states are the same in all their parts.
pub fn are_same(a: &Abs, b: &Abs) -> bool
    ensures { IsTrue result ↔ (a.now ≡ b.now) }
{
    are_same_where(is_any_named(&a.kinds), a, b)
}

/// Whether two states are the same, if it is known whether a register of the first names a list.
#[inline(always)]
pub fn are_same_where(named: bool, a: &Abs, b: &Abs) -> bool
    requires { named ≡ list_any has_list a.now.kinds }
    ensures { IsTrue result ↔ (a.now ≡ b.now) }
{
    same_kinds(named, &a.kinds, &b.kinds)
        && same_locks(&a.locks, &b.locks)
        && a.cancel == b.cancel
        && a.duty == b.duty
        && a.settled == b.settled
        && a.token == b.token
}

/// Whether registers have the same kinds, by two numbers of each. What they say is compared first,
/// without a branch for each; most often none of them names a list, and that is all.
#[tactic(auto, using(crate::proofs::Same::kinds_same, crate::proofs::Same::kinds_alike, crate::proofs::Same::no_queues))]
fn same_kinds(named: bool, a: &[Kind; REGISTERS], b: &[Kind; REGISTERS]) -> bool
    requires { named ≡ list_any has_list a.now }
    ensures { IsTrue result ↔ (a.now ≡ b.now) }
{
    same_shapes(a, b) && (!named || same_queues(a, b))
}

/// Whether registers say the same, their lists apart.
#[inline(always)]
#[tactic(auto, using(crate::proofs::Same::shapes_next))]
fn same_shapes(a: &[Kind; REGISTERS], b: &[Kind; REGISTERS]) -> bool
    ensures { result ≡ same_shapes a.now b.now }
{
    let mut same = true;
    let mut i = REGISTERS;
    while i > 0 {
        i -= 1;
        same = (shape(a[i]) == shape(b[i])) & same;
    }
    same
}

/// Whether registers name lists of the same numbers.
#[tactic(auto, using(crate::proofs::Same::queues_next))]
fn same_queues(a: &[Kind; REGISTERS], b: &[Kind; REGISTERS]) -> bool
    ensures { result ≡ same_queues a.now b.now }
{
    let mut same = true;
    let mut i = REGISTERS;
    while i > 0 {
        i -= 1;
        same = (queue_number(a[i]) == queue_number(b[i])) & same;
    }
    same
}

/// Whether a register names a list.
#[inline(always)]
#[tactic(auto, using(crate::proofs::Same::lists_next))]
pub fn is_any_named(kinds: &[Kind; REGISTERS]) -> bool
    ensures { result ≡ list_any has_list kinds.now }
{
    let mut named = false;
    let mut i = REGISTERS;
    while i > 0 {
        i -= 1;
        named = has_list(kinds[i]) | named;
    }
    named
}

/// Whether a kind names a list.
#[inline(always)]
pub fn has_list(kind: Kind) -> bool
    ensures { result ≡ has_list kind }
{
    matches!(kind, Kind::Queued(_, _))
}

/// A number for what a kind says, its list apart.
#[inline(always)]
fn shape(kind: Kind) -> u8
    ensures { result ≡ shape kind }
{
    match kind {
        Kind::Blank => 0,
        Kind::Num => 1,
        Kind::Lower => 2,
        Kind::New => 3,
        Kind::Own => 4,
        Kind::View => 5,
        Kind::Queued(_, stage) => 6 + stage as u8,
    }
}

/// The number of the list that a kind names, and 0 where it names none.
#[inline(always)]
fn queue_number(kind: Kind) -> u16
    ensures { result ≡ queue_number kind }
{
    match kind {
        Kind::Queued(name, _) => name_number(name),
        _ => 0,
    }
}

/// A number for a list: 0 for the device queue, and the queues that the driver declares after it.
#[inline(always)]
fn name_number(name: QueueName) -> u16
    ensures { result ≡ name_number name }
{
    match name {
        QueueName::DeviceQueue => 0,
        QueueName::Declared(queue) => queue as u16 + 1,
    }
}

fn same_locks(a: &[bool; SPIN_LOCKS], b: &[bool; SPIN_LOCKS]) -> bool
    ensures { IsTrue result ↔ (a.now ≡ b.now) }
{
    for i in 0..SPIN_LOCKS {
        if a[i] != b[i] {
            return false;
        }
    }
    true
}

/// What a register may be used for.
pub fn kind(state: &Abs, register: Register) -> Kind
    ensures { result ≡ kind_of state.now register }
{
    state.kinds[register.index()]
}

/// Whether the thread holds a spin lock of the device, or the system cancel spin lock.
#[inline(always)]
pub fn holds_guard(state: &Abs, guard: &Guard) -> bool
    ensures { result ≡ holds_guard state.now guard.now }
{
    match *guard {
        Guard::DeviceLock(lock) => state.locks[lock.index()],
        Guard::CancelLock => state.cancel,
    }
}
