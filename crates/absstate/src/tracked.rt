//! An abstract state with a note whether a register may name a list, and what changes it. Most
//! routines name none, and then nothing that asks for the lists of registers has to look at them.

ghost use Rattle.std.specs.Prelude.{◌≡◌, ◌↔◌, IsTrue, true, false};
ghost use Rattle.std.specs.List.{list_any};
ghost use Rattle.absstate.specs.Same.{has_list};
ghost use Rattle.model.specs.LocalRule.{kind_of, with_kind};
ghost use Rattle.model.specs.LocalRule.{with_held, moved};
ghost use Rattle.model.specs.Kinds.{left_behind};
ghost use Rattle.model.specs.LocalRule.{marked, given_down};
ghost use Rattle.model.specs.Kinds.{duty_completed};

use crate::state::{are_same_where, has_list, is_any_named, kind};
use model::abs::{Abs, Duty, Kind, Settled};
use model::instr::Register;
use model::limits::REGISTERS;
use model::set::Guard;
use std::marker::Model;

/// An abstract state, and whether one of its registers names a list.
#[derive(Clone, Copy)]
pub struct Tracked {
    pub(crate) state: Abs,
    pub(crate) named: bool,
}

impl Model for Tracked {
    ghost use Rattle.std.specs.Prelude.{◌≡◌};
    ghost use Rattle.std.specs.List.{list_any};
    ghost use Rattle.model.specs.declared.abs.Abs.{Abs};
    ghost use Rattle.absstate.specs.Same.{has_list};

    ghost Value = { Abs };

    ghost view = { λ t. t.state };

    ghost inverse = { λ state. record { state = state; named = list_any has_list state.kinds } };

    ghost invariant = { λ t. t.named ≡ list_any has_list t.state.kinds };
}

impl Tracked {
    /// A state, at whose registers it looks.
    pub fn of(state: Abs) -> Tracked
        ensures { result ≡ state }
    {
        Tracked {
            named: is_any_named(&state.kinds),
            state,
        }
    }

    /// The state.
    #[inline(always)]
    pub fn state(&self) -> &Abs
        ensures { result.now ≡ self.now }
    {
        &self.state
    }

    /// Whether two are the same state.
    pub fn is_same(&self, other: &Tracked) -> bool
        ensures { IsTrue result ↔ (self.now ≡ other.now) }
    {
        are_same_where(self.named, &self.state, &other.state)
    }
}

/// Puts another kind into a register. Whether one names a list still has to be looked for where
/// this one did.
#[inline(always)]
#[tactic(auto, using(crate::proofs::Same::list_put, crate::proofs::Same::none_put, crate::proofs::Same::none_left))]
pub fn set_kind(tracked: &mut Tracked, register: Register, kind: Kind)
    ensures { tracked.new ≡ with_kind tracked.old register kind }
{
    let before = tracked.state.kinds[register.index()];
    tracked.state.kinds[register.index()] = kind;
    if has_list(kind) {
        tracked.named = true;
    } else if tracked.named && has_list(before) {
        tracked.named = is_one_left(&tracked.state.kinds);
    }
}

/// Whether a register still names a list, where this is seldom asked.
#[inline(never)]
pub fn is_one_left(kinds: &[Kind; REGISTERS]) -> bool
    ensures { result ≡ list_any has_list kinds.now }
{
    is_any_named(kinds)
}

/// Notes that one of these locks is held, or not.
#[inline(always)]
pub fn set_held(tracked: &mut Tracked, guard: &Guard, held: bool)
    ensures { tracked.new ≡ with_held tracked.old guard.now held }
{
    match *guard {
        Guard::DeviceLock(lock) => tracked.state.locks[lock.index()] = held,
        Guard::CancelLock => tracked.state.cancel = held,
    }
}

/// Moves what is in a register to another one: a number is there as well then.
pub fn move_kind(tracked: &mut Tracked, to: Register, from: Register)
    ensures { tracked.new ≡ moved tracked.old to from }
{
    let kind = kind(&tracked.state, from);
    set_kind(tracked, to, kind);
    set_kind(tracked, from, left_behind(kind));
}

/// What is in a register after it was moved away.
fn left_behind(kind: Kind) -> Kind
    ensures { result ≡ left_behind kind }
{
    match kind {
        Kind::Num => Kind::Num,
        _ => Kind::Blank,
    }
}

/// Marks the packet in a register: the routine owns it, and has to return STATUS_PENDING; a
/// completion routine has carried the mark up.
pub fn mark(tracked: &mut Tracked, register: Register)
    ensures { tracked.new ≡ marked tracked.old register (kind_of tracked.old register) }
{
    match kind(&tracked.state, register) {
        Kind::New => {
            set_kind(tracked, register, Kind::Own);
            tracked.state.duty = Duty::Pending;
        }
        Kind::View => tracked.state.settled = Settled::Settled,
        _ => {}
    }
}

/// Gives the packet in a register to the lower driver: one that wasn't marked leaves the status
/// that this returned.
pub fn give_down(tracked: &mut Tracked, register: Register)
    ensures { tracked.new ≡ given_down tracked.old register (kind_of tracked.old register) }
{
    match kind(&tracked.state, register) {
        Kind::New => {
            set_kind(tracked, register, Kind::Lower);
            tracked.state.duty = Duty::GivenDown;
        }
        Kind::Own => set_kind(tracked, register, Kind::Blank),
        _ => {}
    }
}

/// Completes the packet in a register: it is gone, and the duty to one that wasn't marked has
/// ended.
pub fn complete(tracked: &mut Tracked, register: Register)
    ensures { tracked.new
        ≡ record (with_kind tracked.old register Kind.Blank) {
          duty = duty_completed (kind_of tracked.old register) tracked.old.duty;
        } }
{
    if let Kind::New = kind(&tracked.state, register) {
        tracked.state.duty = Duty::Finished;
    }
    set_kind(tracked, register, Kind::Blank);
}

/// Takes the current packet of the device into a register: the routine owns it, and has the token.
pub fn take(tracked: &mut Tracked, register: Register)
    ensures { tracked.new ≡ record (with_kind tracked.old register Kind.Own) { token = true } }
{
    set_kind(tracked, register, Kind::Own);
    tracked.state.token = true;
}

/// Makes the packet in a register the current one of the device, which gets the token with it.
pub fn begin(tracked: &mut Tracked, register: Register)
    ensures { tracked.new ≡ record (with_kind tracked.old register Kind.Blank) { token = false } }
{
    set_kind(tracked, register, Kind::Blank);
    tracked.state.token = false;
}
