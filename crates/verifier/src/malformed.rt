//! Instructions that can't stand where they do, whatever leads there.

ghost use Rattle.std.specs.Prelude.{◌≡◌, ◌<◌, ◌↔◌, ◌&&◌, ◌+◌, length, nat_eq, slice_get};
ghost use Rattle.std.specs.Prelude.{IsTrue};
ghost use Rattle.model.specs.Paths.{is_malformed, is_misplaced, isnt_return, goes_forward};
ghost use Rattle.model.specs.Set.{flow_of};
ghost use Rattle.verifier.specs.Survey.{is_onward, ArePlaced};

use crate::loops::Place;
use model::instr::Instr;
use model::limits::MAX_LOOPS;

/// Whether what stands at a position is no part of a routine: the last instruction isn't a return,
/// or a jump, a `loop` or an `end` can't stand there. Most instructions can stand anywhere before
/// the last position.
#[inline(always)]
#[tactic(auto, using(crate::proofs::Forming::onward_formed))]
pub fn is_malformed(code: &[Instr], places: &[Place], at: usize) -> bool
    requires within { at < length code.now }
    requires placed { ArePlaced code.now (length code.now) places.now }
    ensures { result ≡ is_malformed code.now at }
{
    let instr = code[at];
    if at + 1 < code.len() && is_onward(&instr) {
        return false;
    }
    is_malformed_there(code, places, at)
}

/// Whether an instruction leads to the next position alone, and neither opens nor closes a loop.
#[inline(always)]
fn is_onward(instr: &Instr) -> bool
    ensures { result ≡ is_onward (flow_of instr.now) }
{
    match *instr {
        Instr::JumpIfZero(..)
        | Instr::JumpIfLess(..)
        | Instr::Jump(_)
        | Instr::Loop(_)
        | Instr::End
        | Instr::Remove(..)
        | Instr::Disarm(..)
        | Instr::IfCancel(..)
        | Instr::Take(..)
        | Instr::IfPending(..)
        | Instr::Ret(_) => false,
        _ => true,
    }
}

/// The same, whatever stands there.
fn is_malformed_there(code: &[Instr], places: &[Place], at: usize) -> bool
    requires within { at < length code.now }
    requires placed { ArePlaced code.now (length code.now) places.now }
    ensures { result ≡ is_malformed code.now at }
{
    ends_without_return(code, at) || is_misplaced(code, places, at)
}

/// Whether the last instruction is at a position and isn't a return.
fn ends_without_return(code: &[Instr], at: usize) -> bool
    requires { at < length code.now }
    ensures { result
        ≡ (nat_eq (at + 1) (length code.now) && isnt_return (slice_get code.now at)) }
{
    at + 1 == code.len() && !matches!(code[at], Instr::Ret(_))
}

/// Whether a jump, a `loop` or an `end` can't stand at its position.
fn is_misplaced(code: &[Instr], places: &[Place], at: usize) -> bool
    requires within { at < length code.now }
    requires placed { ArePlaced code.now (length code.now) places.now }
    ensures { result ≡ is_misplaced code.now at (slice_get code.now at) }
{
    let instr = &code[at];
    if let Some(label) = instr.label() {
        return !goes_forward(code, places, at, label as usize);
    }
    let place = &places[at];
    match *instr {
        Instr::Loop(_) => !place.closed || place.round.depth as usize >= MAX_LOOPS,
        Instr::End => place.opened.is_none(),
        _ => false,
    }
}

/// Whether a jump goes forward, to a position of the routine round which the same loops are.
fn goes_forward(code: &[Instr], places: &[Place], at: usize, label: usize) -> bool
    requires within { at < length code.now }
    requires placed { ArePlaced code.now (length code.now) places.now }
    ensures { result ≡ goes_forward code.now at label }
{
    at < label && label < code.len() && are_in_same_loops(&places[at], &places[label])
}

/// Whether the same loops' bodies hold two positions: since a loop is in the same ones wherever it
/// is the innermost, that is whether the innermost loop is the same.
fn are_in_same_loops(here: &Place, there: &Place) -> bool
    ensures { IsTrue result ↔ (here.now.round.innermost ≡ there.now.round.innermost) }
{
    here.round.innermost == there.round.innermost
}
