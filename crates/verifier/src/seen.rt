//! The states that arrive at the positions of a routine.

ghost use Rattle.std.specs.Prelude.{◌≡◌, ◌<◌, ◌↔◌, length, slice_index_or, IsTrue};
ghost use Rattle.model.specs.LocalRule.{handed, handed_at_label};
ghost use Rattle.model.specs.Set.{flow_of};

use crate::table::Table;
use absstate::{Tracked, advance, state_at_label};
use driver_set::DriverSet;
use model::instr::Instr;

/// The states that have been seen to arrive at a position.
#[derive(Clone, Copy)]
pub enum Seen {
    /// None so far.
    Nothing,
    /// This one, and no other.
    One(Tracked),
    /// Two that differ.
    Several,
}

/// How many states arrive at the position of a pass, which keeps the one of them beside this.
#[derive(Clone, Copy)]
pub enum Arrivals {
    /// None.
    Missing,
    /// The one that is kept.
    Alone,
    /// Two that differ.
    Differing,
}

ghost use Rattle.verifier.specs.Table.{IsJoined, IsNoted, IsKept, IsArrived, changes_at_label};
ghost use Rattle.verifier.specs.Table.{seen_of};

/// Notes that a state arrives at a position of the routine, if it is one.
fn note(table: &mut Table, to: usize, state: &Tracked)
    ensures { IsNoted table.old to state.now table.new }
{
    if to >= table.len() {
        return;
    }
    match table.at(to) {
        Seen::Nothing => table.put_one(to, state),
        Seen::One(first) if first.is_same(state) => {}
        Seen::One(_) | Seen::Several => table.put(to, Seen::Several),
    }
}

/// Keeps what is looked at later of an instruction at a position that is reached in a state: what
/// arrives at its label, and the state at a loop's start.
pub fn keep(table: &mut Table, at: usize, instr: &Instr, state: &Tracked)
    requires { at < length table.old }
    ensures { IsKept (flow_of instr.now) at state.now (handed_at_label state.now instr.now)
        table.old table.new }
{
    if let Some(label) = instr.label() {
        note_at_label(table, label as usize, instr, state);
    } else if let Instr::Loop(_) = *instr {
        table.put_one(at, state);
    }
}

/// Notes what arrives at the label of an instruction that is reached in a state: most hand on that
/// state whole, which isn't made anew for it.
#[tactic(auto, using(crate::proofs::Forming::handed_whole))]
fn note_at_label(table: &mut Table, to: usize, instr: &Instr, state: &Tracked)
    ensures { IsNoted table.old to (handed_at_label state.now instr.now) table.new }
{
    if changes_at_label(instr) {
        note(table, to, &state_at_label(state, instr));
    } else {
        note(table, to, state);
    }
}

/// Whether the state at the label of an instruction may be another one than that before it.
fn changes_at_label(instr: &Instr) -> bool
    ensures { result ≡ changes_at_label instr.now }
{
    matches!(
        *instr,
        Instr::Remove(..) | Instr::Disarm(..) | Instr::Take(..) | Instr::IfPending(..)
    )
}

/// Takes the state before an instruction of a driver of a set to the next position, where jumps
/// have led what is there.
pub fn arrive(
    there: &Seen,
    instr: &Instr,
    state: &mut Tracked,
    set: &DriverSet,
    driver: u8,
) -> Arrivals
    ensures { IsArrived (flow_of instr.now) (handed set.now driver state.old instr.now) there.now
        (seen_of result state.new) }
{
    match *instr {
        Instr::Jump(_) | Instr::Ret(_) => take(there, state),
        _ => {
            advance(state, instr, set, driver);
            meet(there, state)
        }
    }
}

/// Where jumps alone lead.
fn take(there: &Seen, state: &mut Tracked) -> Arrivals
    ensures { seen_of result state.new ≡ there.now }
{
    match *there {
        Seen::Nothing => Arrivals::Missing,
        Seen::One(only) => {
            *state = only;
            Arrivals::Alone
        }
        Seen::Several => Arrivals::Differing,
    }
}

/// Where a state arrives beside those that jumps lead there.
fn meet(there: &Seen, state: &Tracked) -> Arrivals
    ensures { IsJoined there.now state.now (seen_of result state.now) }
{
    match there {
        Seen::Nothing => Arrivals::Alone,
        Seen::One(first) if first.is_same(state) => Arrivals::Alone,
        Seen::One(_) | Seen::Several => Arrivals::Differing,
    }
}

/// Whether a state and no other has been seen to arrive at a position.
pub fn is_only(table: &Table, at: usize, state: &Tracked) -> bool
    requires { at < length table.now }
    ensures { IsTrue result ↔ (slice_index_or table.now at Seen.Nothing ≡ Seen.One state.now) }
{
    match table.at(at) {
        Seen::One(first) => first.is_same(state),
        Seen::Nothing | Seen::Several => false,
    }
}
