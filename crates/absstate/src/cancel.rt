//! What a list with a cancel routine demands of the packets in it, and what becomes of the
//! registers that hold them. A packet there is the routine's own while no cancel routine can be
//! called for it.

ghost use Rattle.std.specs.Prelude.{◌≡◌};
ghost use Rattle.std.specs.List.{list_any};
ghost use Rattle.model.specs.LocalRule.{kind_of, with_kind, least_of, unless, guard_fault};
ghost use Rattle.model.specs.LocalRule.{free_kind};
ghost use Rattle.model.specs.Kinds.{is_name, is_stage, is_at, is_claim, is_exchanged};
ghost use Rattle.model.specs.LocalRule.{queued_kind, unlink_kind, names_fault};
ghost use Rattle.model.specs.Kinds.{names_list};
ghost use Rattle.model.specs.LocalRule.{acquire_fault, release_fault, rule_of_lock};
ghost use Rattle.model.specs.Kinds.{is_guard, is_same_lock, stays_under_guard, needs_guard};
ghost use Rattle.model.specs.Kinds.{kind_inserted, kind_removed, kind_disarmed};
ghost use Rattle.model.specs.LocalRule.{released};
ghost use Rattle.model.specs.Kinds.{let_go, all_let_go};
ghost use Rattle.model.specs.Set.{cancel_routine_of, guard_named, has_cancel};

use crate::fault::{broken_if, free_fault, least, unless};
use crate::queues::guard_fault;
use crate::state::{holds_guard, kind};
use crate::tracked::{Tracked, is_one_left, set_held, set_kind};
use driver_set::DriverSet;
use model::abs::{Abs, Kind, Rule, Stage};
use model::instr::Register;
use model::set::{Guard, QueueName};

/// `remove` wants the guard of the queue, a register for the packet, and no register with a packet
/// that is or was to be cancelled there: it could be the same.
pub fn remove_fault(
    state: &Abs,
    to: Register,
    set: &DriverSet,
    driver: u8,
    queue: u8,
) -> Option<Rule>
    ensures { result
        ≡ least_of (guard_fault state.now set.now driver (QueueName.Declared queue))
        (least_of (free_kind (kind_of state.now to))
        (names_fault state.now (QueueName.Declared queue))) }
{
    let name = QueueName::Declared(queue);
    let named = names_fault(state, name);
    least(
        guard_fault(state, set, driver, name),
        least(free_fault(state, to), named),
    )
}

/// `unlink` wants a packet that is the routine's own and in the queue, or that is being cancelled
/// there, and the guard of the queue.
pub fn unlink_fault(
    state: &Abs,
    register: Register,
    set: &DriverSet,
    driver: u8,
    queue: u8,
) -> Option<Rule>
    ensures { result
        ≡ least_of (unlink_kind (QueueName.Declared queue) (kind_of state.now register))
        (guard_fault state.now set.now driver (QueueName.Declared queue)) }
{
    let name = QueueName::Declared(queue);
    least(
        unlink_kind(name, kind(state, register)),
        guard_fault(state, set, driver, name),
    )
}

/// `arm` wants a packet that is the routine's own and in the queue, and the guard of the queue.
pub fn arm_fault(
    state: &Abs,
    register: Register,
    set: &DriverSet,
    driver: u8,
    queue: u8,
) -> Option<Rule>
    ensures { result
        ≡ least_of
        (queued_kind (is_at Stage.Listed (QueueName.Declared queue) (kind_of state.now register))
        (kind_of state.now register))
        (guard_fault state.now set.now driver (QueueName.Declared queue)) }
{
    let kind = kind(state, register);
    let name = QueueName::Declared(queue);
    least(
        queued_kind(is_at(Stage::Listed, name, kind), kind),
        guard_fault(state, set, driver, name),
    )
}

/// `disarm` wants a packet whose cancel routine the routine has set, or that it has taken off a
/// list.
pub fn disarm_fault(kind: Kind) -> Option<Rule>
    ensures { result ≡ queued_kind (is_exchanged kind) kind }
{
    queued_kind(is_exchanged(kind), kind)
}

/// `dequeue` wants a packet of the device queue that IoCancelIrp handed to its cancel routine, the
/// guard of the device queue, and a driver that has such a routine.
pub fn dequeue_fault(state: &Abs, register: Register, set: &DriverSet, driver: u8) -> Option<Rule>
    ensures { result
        ≡ least_of
        (queued_kind (is_at Stage.Cancelling QueueName.DeviceQueue (kind_of state.now register))
        (kind_of state.now register))
        (least_of (guard_fault state.now set.now driver QueueName.DeviceQueue)
        (unless (has_cancel set.now driver QueueName.DeviceQueue) Rule.Sort)) }
{
    let kind = kind(state, register);
    let named = QueueName::DeviceQueue;
    let sorted = unless(set.has_cancel(driver, named), Rule::Sort);
    least(
        queued_kind(is_at(Stage::Cancelling, named, kind), kind),
        least(guard_fault(state, set, driver, named), sorted),
    )
}

/// A lock is acquired while it isn't held.
pub fn acquire_fault(state: &Abs, lock: &Guard) -> Option<Rule>
    ensures { result ≡ acquire_fault state.now lock.now }
{
    broken_if(holds_guard(state, lock), rule_of_lock(lock))
}

/// A lock that is released was held, and no register needs it.
#[inline(always)]
pub fn release_fault(tracked: &Tracked, set: &DriverSet, driver: u8, lock: &Guard) -> Option<Rule>
    ensures { result ≡ release_fault tracked.now set.now driver lock.now }
{
    let needed = is_any_in_need(tracked, set, driver, lock);
    least(
        broken_if(!holds_guard(&tracked.state, lock), rule_of_lock(lock)),
        broken_if(needed, Rule::Guard),
    )
}

/// The rule on who holds a lock: the system cancel spin lock has one of its own.
fn rule_of_lock(lock: &Guard) -> Rule
    ensures { result ≡ rule_of_lock lock.now }
{
    match *lock {
        Guard::DeviceLock(_) => Rule::SpinLock,
        Guard::CancelLock => Rule::CancelSpinLock,
    }
}

fn unlink_kind(name: QueueName, kind: Kind) -> Option<Rule>
    ensures { result ≡ unlink_kind name kind }
{
    queued_kind(
        is_at(Stage::Listed, name, kind) || is_at(Stage::Cancelling, name, kind),
        kind,
    )
}

/// A packet of a list with a cancel routine has to be there, in a state that fits the instruction.
fn queued_kind(fits: bool, kind: Kind) -> Option<Rule>
    ensures { result ≡ queued_kind fits kind }
{
    match kind {
        Kind::Blank | Kind::Num | Kind::Lower => Some(Rule::WrongKind),
        Kind::New | Kind::Own => Some(Rule::CancelState),
        Kind::Queued(_, _) => unless(fits, Rule::CancelState),
        Kind::View => Some(Rule::Completion),
    }
}

fn names_fault(state: &Abs, name: QueueName) -> Option<Rule>
    ensures { result ≡ names_fault state.now name }
{
    broken_if(is_any_naming(&state.kinds, name), Rule::CancelState)
}

fn is_any_naming(kinds: &[Kind], name: QueueName) -> bool
    ensures { result ≡ list_any (names_list name) kinds.now }
{
    kinds.iter().any(|kind| names_list(name, *kind))
}

/// Whether a packet is or was to be cancelled in a list.
fn names_list(name: QueueName, kind: Kind) -> bool
    ensures { result ≡ names_list name kind }
{
    is_at(Stage::Listed, name, kind)
        || is_at(Stage::Armed, name, kind)
        || is_at(Stage::Cancelling, name, kind)
}

/// Whether a packet of a list is at a stage.
fn is_at(stage: Stage, name: QueueName, kind: Kind) -> bool
    ensures { result ≡ is_at stage name kind }
{
    match kind {
        Kind::Queued(other, at) => is_stage(at, stage) && is_name(other, name),
        _ => false,
    }
}

fn is_stage(one: Stage, other: Stage) -> bool
    ensures { result ≡ is_stage one other }
{
    one.number() == other.number()
}

/// Whether the exchange of a packet's cancel routine tells whose it is.
fn is_exchanged(kind: Kind) -> bool
    ensures { result ≡ is_exchanged kind }
{
    match kind {
        Kind::Queued(_, stage) => is_claim(stage),
        _ => false,
    }
}

/// Whether a packet at a stage is one that IoCancelIrp may take, or has taken.
fn is_claim(stage: Stage) -> bool
    ensures { result ≡ is_claim stage }
{
    matches!(stage, Stage::Armed | Stage::Taken)
}

/// Whether two names are of the same list.
fn is_name(one: QueueName, other: QueueName) -> bool
    ensures { result ≡ is_name one other }
{
    match (one, other) {
        (QueueName::Declared(first), QueueName::Declared(second)) => first == second,
        (QueueName::DeviceQueue, QueueName::DeviceQueue) => true,
        _ => false,
    }
}

/// Whether a register needs a lock. Most often none names a list, and that is all.
#[inline(always)]
fn is_any_in_need(tracked: &Tracked, set: &DriverSet, driver: u8, lock: &Guard) -> bool
    ensures { result ≡ list_any (needs_guard set.now driver lock.now) tracked.now.kinds }
{
    tracked.named && is_one_in_need(&tracked.state.kinds, set, driver, lock)
}

fn is_one_in_need(kinds: &[Kind], set: &DriverSet, driver: u8, lock: &Guard) -> bool
    ensures { result ≡ list_any (needs_guard set.now driver lock.now) kinds.now }
{
    kinds
        .iter()
        .any(|kind| needs_guard(set, driver, lock, *kind))
}

/// Whether a packet stays where it is as long as the routine holds a lock: it stands in a list that
/// the lock guards, with no cancel routine set, or was taken off it; or it is being cancelled, and
/// stands in the device queue until it is taken off.
fn needs_guard(set: &DriverSet, driver: u8, lock: &Guard, kind: Kind) -> bool
    ensures { result ≡ needs_guard set.now driver lock.now kind }
{
    match kind {
        Kind::Queued(name, stage) => {
            stays_under_guard(stage, name) && is_guard(set, driver, name, lock)
        }
        _ => false,
    }
}

fn stays_under_guard(stage: Stage, name: QueueName) -> bool
    ensures { result ≡ stays_under_guard stage name }
{
    match stage {
        Stage::Listed | Stage::Taken => true,
        Stage::Armed => false,
        Stage::Cancelling => matches!(name, QueueName::DeviceQueue),
    }
}

/// Whether a lock guards a list.
fn is_guard(set: &DriverSet, driver: u8, name: QueueName, lock: &Guard) -> bool
    ensures { result ≡ is_guard (guard_named set.now driver name) lock.now }
{
    match set.guard_named(driver, name) {
        Some(guard) => is_same_lock(&guard, lock),
        None => false,
    }
}

fn is_same_lock(one: &Guard, other: &Guard) -> bool
    ensures { result ≡ is_same_lock one.now other.now }
{
    match *one {
        Guard::DeviceLock(first) => match *other {
            Guard::DeviceLock(second) => first.index() == second.index(),
            Guard::CancelLock => false,
        },
        Guard::CancelLock => matches!(*other, Guard::CancelLock),
    }
}

/// Puts the packet in a register into a queue. It stays the routine's own while it holds the guard,
/// unless the queue is plain.
pub fn insert(tracked: &mut Tracked, register: Register, set: &DriverSet, driver: u8, queue: u8)
    ensures { tracked.new
        ≡ with_kind tracked.old register
        (kind_inserted (cancel_routine_of set.now driver queue) (QueueName.Declared queue)) }
{
    let kind = match set.cancel_routine(driver, queue) {
        Some(_) => Kind::Queued(QueueName::Declared(queue), Stage::Listed),
        None => Kind::Blank,
    };
    set_kind(tracked, register, kind);
}

/// Takes the first packet off a queue into a register. It may be cancelled until its cancel routine
/// is exchanged, unless the queue is plain.
pub fn remove(tracked: &mut Tracked, register: Register, set: &DriverSet, driver: u8, queue: u8)
    ensures { tracked.new
        ≡ with_kind tracked.old register
        (kind_removed (cancel_routine_of set.now driver queue) (QueueName.Declared queue)) }
{
    let kind = match set.cancel_routine(driver, queue) {
        Some(_) => Kind::Queued(QueueName::Declared(queue), Stage::Taken),
        None => Kind::Own,
    };
    set_kind(tracked, register, kind);
}

/// Notes that the cancel routine of the packet in a register was set, so that IoCancelIrp won't
/// call it any more.
pub fn disarm(tracked: &mut Tracked, register: Register)
    ensures { tracked.new
        ≡ with_kind tracked.old register (kind_disarmed (kind_of tracked.old register)) }
{
    let kind = match kind(&tracked.state, register) {
        Kind::Queued(name, Stage::Armed) => Kind::Queued(name, Stage::Listed),
        Kind::Queued(_, Stage::Taken) => Kind::Own,
        kind => kind,
    };
    set_kind(tracked, register, kind);
}

/// Releases a lock: a packet in a list that it guards, whose cancel routine is set, belongs to
/// whoever comes first then.
#[inline(always)]
pub fn release(tracked: &mut Tracked, set: &DriverSet, driver: u8, lock: &Guard)
    ensures { tracked.new ≡ released tracked.old set.now driver lock.now }
{
    armed_let_go(tracked, set, driver, lock);
    set_held(tracked, lock, false);
}

/// Lets the registers go, of which most often none names a list.
#[inline(always)]
#[tactic(auto, using(crate::proofs::Releasing::none_let_go))]
fn armed_let_go(tracked: &mut Tracked, set: &DriverSet, driver: u8, lock: &Guard)
    ensures { tracked.new
        ≡ record tracked.old { kinds = all_let_go set.now driver lock.now tracked.old.kinds } }
{
    if tracked.named {
        each_let_go(tracked, set, driver, lock);
    }
}

/// Lets the registers go one by one, and looks again whether one still names a list.
fn each_let_go(tracked: &mut Tracked, set: &DriverSet, driver: u8, lock: &Guard)
    ensures { tracked.new
        ≡ record tracked.old { kinds = all_let_go set.now driver lock.now tracked.old.kinds } }
{
    all_let_go(&mut tracked.state.kinds, set, driver, lock);
    tracked.named = is_one_left(&tracked.state.kinds);
}

fn all_let_go(kinds: &mut [Kind], set: &DriverSet, driver: u8, lock: &Guard)
    ensures { kinds.new ≡ all_let_go set.now driver lock.now kinds.old }
{
    for kind in kinds.iter_mut() {
        *kind = let_go(set, driver, lock, *kind);
    }
}

fn let_go(set: &DriverSet, driver: u8, lock: &Guard, kind: Kind) -> Kind
    ensures { result ≡ let_go set.now driver lock.now kind }
{
    match kind {
        Kind::Queued(name, Stage::Armed) if is_guard(set, driver, name, lock) => Kind::Blank,
        _ => kind,
    }
}
