//! The labels of a routine put in place of their names, once all of them are known.

ghost use Rattle.std.specs.Prelude.{◌≡◌, ◌++◌, [], ◌∷◌, IfOk, OnOk, map, Some};
ghost use Rattle.asm.specs.Outline.{earliest, missed, missed_from, label_resolved, target_position};
ghost use Rattle.asm.specs.Outline.{with_label};

use crate::code::{Closed, ClosedCode, is_bare};
use crate::draft::Step;
use crate::names::{Use, earliest};
use indexmap::IndexSet;
use model::instr::Instr;
use std::alloc::AllocError;
use text::piece::Piece;

/// These instructions, and behind them others of the routine, each with the position of the label
/// that it jumps to; and the earliest line of those that uses a label which isn't there, or the one
/// found already if that is earlier.
pub fn linked(
    labels: &IndexSet<Piece<'_>>,
    positions: &[u16],
    found: Option<u64>,
    before: ClosedCode,
    steps: &[Step<'_>],
) -> Result<Closed, AllocError>
    ensures code { IfOk result (λ closed. closed.code
        ≡ before ++ map (label_resolved labels.now.keys positions.now) steps.now) }
    ensures missed { IfOk result
        (λ closed. closed.missed ≡ missed_from labels.now.keys found steps.now) }
{
    let mut code = before;
    let mut missed = found;
    for step in steps {
        link(&mut code, labels, positions, step, &mut missed)?;
    }
    Ok(Closed { code, missed })
}

/// Adds an instruction with the position of its label; a line that uses one which isn't there is
/// noted. Most name nothing, and are copied whole.
#[inline(always)]
#[tactic(auto, using(crate::proofs::Bare::bare_resolved, crate::proofs::Orderly::Names::earliest_none))]
fn link(
    code: &mut ClosedCode,
    labels: &IndexSet<Piece<'_>>,
    positions: &[u16],
    step: &Step<'_>,
    found: &mut Option<u64>,
) -> Result<(), AllocError>
    ensures code { OnOk result
        (code.new ≡ code.old ++ label_resolved labels.now.keys positions.now step.now ∷ []) }
    ensures missed { OnOk result
        (found.new ≡ earliest found.old (missed labels.now.keys step.now.label)) }
{
    let named = step.label.is_some() || step.call.is_some() || step.queue.is_some();
    if !named && is_bare(&step.instr) {
        return code.push(step.instr, None, None);
    }
    let instr = labelled(labels, positions, step, found);
    code.push(instr, step.call, step.queue)
}

/// The instruction of a step with the position of its label; a line that uses one which isn't there
/// is noted.
#[tactic(auto, using(crate::proofs::Orderly::Names::earliest_none))]
fn labelled(
    labels: &IndexSet<Piece<'_>>,
    positions: &[u16],
    step: &Step<'_>,
    found: &mut Option<u64>,
) -> Instr
    ensures instr { result ≡ with_label step.now.instr
        (target_position labels.now.keys positions.now step.now.label) }
    ensures missed { found.new ≡ earliest found.old (missed labels.now.keys step.now.label) }
{
    match &step.label {
        Some(used) => with_label(step.instr, target(labels, positions, used, found)),
        None => with_label(step.instr, 0),
    }
}

/// The position of this label, which is looked up once; 0 where it isn't there.
#[tactic(auto, using(crate::proofs::Orderly::Names::found_missed, crate::proofs::Orderly::Names::unfound_missed, crate::proofs::Orderly::Names::earliest_none))]
fn target(
    labels: &IndexSet<Piece<'_>>,
    positions: &[u16],
    used: &Use<'_>,
    found: &mut Option<u64>,
) -> u16
    ensures place { result ≡ target_position labels.now.keys positions.now (Some used.now) }
    ensures missed { found.new ≡ earliest found.old (missed labels.now.keys (Some used.now)) }
{
    match labels.get_index_of(&used.name) {
        Some(number) => positions.get(number).copied().unwrap_or(0),
        None => {
            *found = earliest(*found, Some(used.line));
            0
        }
    }
}

/// The instruction with this label in place of its own, if it has one.
fn with_label(instr: Instr, label: u16) -> Instr
    ensures { result ≡ with_label instr label }
{
    match instr {
        Instr::JumpIfZero(register, _) => Instr::JumpIfZero(register, label),
        Instr::JumpIfLess(less, more, _) => Instr::JumpIfLess(less, more, label),
        Instr::Jump(_) => Instr::Jump(label),
        Instr::Remove(register, queue, _) => Instr::Remove(register, queue, label),
        Instr::Disarm(register, _) => Instr::Disarm(register, label),
        Instr::IfCancel(register, _) => Instr::IfCancel(register, label),
        Instr::Take(register, _) => Instr::Take(register, label),
        Instr::IfPending(register, _) => Instr::IfPending(register, label),
        other => other,
    }
}
