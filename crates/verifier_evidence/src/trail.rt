//! Paths through a routine, with the states that arrive along them.

ghost use Rattle.std.specs.Prelude.{◌≡◌, ◌<◌, length, None, IfOk, IfSome};
ghost use Rattle.model.specs.declared.abs.Abs.{Abs};
ghost use Rattle.model.specs.Paths.{Arrives};
ghost use Rattle.verifier_evidence.specs.Path.{IsPath, IsPathTo};
ghost use Rattle.verifier_evidence.specs.Table.{AreFine, ComesFrom, IsCoveredAt, IsTraced};

use crate::arrivals::{Arrival, arrivals_to};
use crate::subject::Subject;
use absstate::Abs;
use model::items::Items;
use std::alloc::{AllocError, Global};

/// A step of a path: a position of the routine, and the state that arrives there.
#[derive(Clone, Copy)]
pub struct Step {
    pub at: u16,
    pub state: Abs,
}

/// A path through a routine, from its start to a place.
#[derive(Drop)]
pub struct Path {
    /// The steps before the last, from the routine's start on.
    pub before: Items<Step>,
    /// The step at the place, with the state that arrives there.
    pub last: Step,
}

/// What arrives on the way to a place of a routine: of each position the first arrival.
#[derive(Drop)]
pub struct Arrivals<'a> {
    pub subject: Subject<'a>,
    pub table: Vec<Option<Arrival>>,
}

impl<'a> Arrivals<'a> {
    /// The path to a step that comes from a position before it, or at which the routine is entered.
    pub fn path(&self, alloc: Global, last: Step, from: Option<u16>) -> Result<Path, AllocError>
        requires traced { IsTraced self.now.subject self.now.table.items }
        requires comes { ComesFrom self.now.subject self.now.table.items last.at last.state from }
        ensures path { IfOk result (λ path. IsPath self.now.subject path) }
        ensures last { IfOk result (λ path. path.last ≡ last) }
    {
        let mut steps = Vec::new(alloc);
        let mut from = from;
        while let Some(at) = from {
            let Some(arrival) = self.table[at as usize] else {
                unreachable!()
            };
            let state = arrival.state;
            steps.push(Step { at, state })?;
            from = arrival.from;
        }
        steps.reverse();
        Ok(Path {
            before: Items::of(steps),
            last,
        })
    }

    /// A path to a position up to the place, if anything arrives there.
    pub fn path_to(&self, alloc: Global, at: u16) -> Result<Option<Path>, AllocError>
        requires within { at < length self.now.table.items }
        requires traced { IsTraced self.now.subject self.now.table.items }
        requires covered { IsCoveredAt self.now.subject self.now.table.items at }
        ensures path { IfOk result
            (λ found. IfSome found (λ path. IsPathTo self.now.subject at path)) }
        ensures none { IfOk result
            (λ found. found ≡ None → (s : Abs) → Arrives self.now.subject at s → ⊥) }
    {
        let Some(arrival) = self.table[at as usize] else {
            return Ok(None);
        };
        let state = arrival.state;
        let path = self.path(alloc, Step { at, state }, arrival.from)?;
        Ok(Some(path))
    }
}

/// A path to a position of a routine, if anything arrives there, where no fault stands before it.
pub fn path_to(alloc: Global, subject: Subject, at: u16) -> Result<Option<Path>, AllocError>
    requires within { at < length subject.routine.code }
    requires fine { AreFine subject at }
    ensures path { IfOk result (λ found. IfSome found (λ path. IsPathTo subject.entry at path)) }
    ensures none { IfOk result
        (λ found. found ≡ None → (s : Abs) → Arrives subject.entry at s → ⊥) }
{
    let table = arrivals_to(alloc, &subject, at)?;
    let arrivals = Arrivals { subject, table };
    arrivals.path_to(alloc, at)
}
