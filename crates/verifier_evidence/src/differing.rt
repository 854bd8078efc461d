//! Two paths along which states that differ arrive.

ghost use Rattle.std.specs.Prelude.{◌≡◌, ◌≢◌, ◌⊎◌, ◌<◌, ℕ, None, Ok, IfOk, IfSome, false, length};
ghost use Rattle.model.specs.declared.abs.Abs.{Abs};
ghost use Rattle.model.specs.declared.abs.Rule.TheVariants.{StatesDiffer};
ghost use Rattle.model.specs.declared.limits.TheConstants.{MAX_INSTRUCTIONS};
ghost use Rattle.model.specs.Paths.{HandsOn, is_malformed};
ghost use Rattle.model.specs.Typable.{EndsUnlike, HasSeveral};
ghost use Rattle.verifier_evidence.specs.Evidence.{Shows};
ghost use Rattle.verifier_evidence.specs.Path.{IsPathTo};
ghost use Rattle.verifier_evidence.specs.Table.{AreFine, AreKnown, ComesFrom, Hands};

use crate::arrivals::Arrival;
use crate::evidence::Evidence;
use crate::trail::{Arrivals, Path, Step};
use absstate::{Abs, Outs, are_same};
use std::alloc::{AllocError, Global};
use verifier::innermost_loop;

/// The evidence that states differ at a place to which a path leads.
pub fn differing(
    alloc: Global,
    arrivals: &Arrivals,
    at: u16,
    path: Path,
) -> Result<Evidence, AllocError>
    requires known { AreKnown arrivals.now.subject at arrivals.now.table.items }
    requires fine { AreFine arrivals.now.subject at }
    requires leads { IsPathTo arrivals.now.subject at path }
    requires differ { HasSeveral arrivals.now.subject at ⊎ EndsUnlike arrivals.now.subject at }
    ensures { IfOk result
        (λ evidence. Shows arrivals.now.subject at StatesDiffer evidence) }
{
    match other_arrival(arrivals, at, &path.last.state) {
        Some(other) => {
            let state = other.state;
            let other = arrivals.path(alloc, Step { at, state }, other.from)?;
            Ok(Evidence::Differing(path, other))
        }
        None => unlike(alloc, arrivals, at, path),
    }
}

/// The evidence that a loop's end is reached in another state than its start.
fn unlike(alloc: Global, arrivals: &Arrivals, at: u16, path: Path) -> Result<Evidence, AllocError>
    requires known { AreKnown arrivals.now.subject at arrivals.now.table.items }
    requires leads { IsPathTo arrivals.now.subject at path }
    requires unlike { EndsUnlike arrivals.now.subject at }
    ensures { IfOk result
        (λ evidence. Shows arrivals.now.subject at StatesDiffer evidence) }
{
    let code = arrivals.subject.code();
    let Some(opened) = innermost_loop(alloc, code, at as usize)? else {
        unreachable!()
    };
    let Some(start) = arrivals.path_to(alloc, opened as u16)? else {
        unreachable!()
    };
    Ok(Evidence::Unlike(start, path))
}

/// An arrival at a place from below it, with another state than this.
fn other_arrival(arrivals: &Arrivals, at: u16, state: &Abs) -> Option<Arrival>
    requires within { at < length arrivals.now.subject.routine.code }
    requires long { length arrivals.now.table.items ≡ length arrivals.now.subject.routine.code }
    requires fine { AreFine arrivals.now.subject at }
    ensures found { IfSome result
        (λ a. ComesFrom arrivals.now.subject arrivals.now.table.items at a.state a.from) }
    ensures other { IfSome result (λ a. a.state ≢ state.now) }
    ensures none { result ≡ None → (q : ℕ) (s : Abs) → q < at
        → Hands arrivals.now.subject arrivals.now.table.items q at s → s ≡ state.now }
{
    for from in 0..at {
        if let Some(other) = other_from(arrivals, from, at, state) {
            return Some(Arrival {
                from: Some(from),
                state: other,
            });
        }
    }
    None
}

/// Another state than this that is handed on from a position to a place.
fn other_from(arrivals: &Arrivals, from: u16, at: u16, state: &Abs) -> Option<Abs>
    requires within { from < length arrivals.now.subject.routine.code }
    requires long { length arrivals.now.table.items ≡ length arrivals.now.subject.routine.code }
    requires formed { is_malformed arrivals.now.subject.routine.code from ≡ false }
    ensures found { IfSome result
        (λ s. Hands arrivals.now.subject arrivals.now.table.items from at s) }
    ensures other { IfSome result (λ s. s ≢ state.now) }
    ensures none { result ≡ None → (s : Abs)
        → Hands arrivals.now.subject arrivals.now.table.items from at s → s ≡ state.now }
{
    let instr = &arrivals.subject.code()[from as usize];
    let Some(arrival) = arrivals.table[from as usize] else {
        return None;
    };
    match arrivals.subject.transfer(&arrival.state, instr) {
        Ok(outs) => other_handed(&outs, instr.label(), from, at, state),
        Err(_) => None,
    }
}

/// Another state than this that an instruction at a position hands on to a place.
fn other_handed(outs: &Outs, label: Option<u16>, from: u16, at: u16, state: &Abs) -> Option<Abs>
    requires { from < MAX_INSTRUCTIONS }
    ensures found { IfSome result (λ s. HandsOn (Ok outs.now) label from at s) }
    ensures other { IfSome result (λ s. s ≢ state.now) }
    ensures none { result ≡ None → (s : Abs) → HandsOn (Ok outs.now) label from at s
        → s ≡ state.now }
{
    if let Some(next) = outs.next
        && from + 1 == at
        && !are_same(&next, state)
    {
        return Some(next);
    }
    match outs.jump {
        Some(jump) if label == Some(at) && !are_same(&jump, state) => Some(jump),
        _ => None,
    }
}
