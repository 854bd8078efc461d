//! The evidence of a refusal, as a value.

ghost use Rattle.std.specs.Prelude.{◌≡◌, ◌≢◌, ◌⊎◌, None, IfOk};
ghost use Rattle.model.specs.LocalRule.{entry_state};
ghost use Rattle.model.specs.Typable.{IsFirstFault, IsFirstFaultOf, at_start};
ghost use Rattle.verifier_evidence.specs.Evidence.{IsEvidence, Shows};

use crate::arrivals::arrivals_to;
use crate::differing::differing;
use crate::subject::Subject;
use crate::trail::{Arrivals, Path};
use absstate::Rule;
use driver_set::DriverSet;
use model::abs::Refusal;
use std::alloc::{AllocError, Global};
use verifier::certificate_through;

/// What shows that a rule is broken at a place of a routine.
#[derive(Drop)]
pub enum Evidence {
    /// What stands there can't stand there, whatever leads to it.
    Misplaced,
    /// No path leads there.
    Unreached,
    /// The routine can't be entered: it is a cancel routine that not exactly one list names.
    NotEntered,
    /// The path there. In the state that arrives the instruction breaks the rule.
    Broken(Path),
    /// Two paths there. The states that arrive differ.
    Differing(Path, Path),
    /// The path to the start of the loop that ends there, and the one there. The states that arrive
    /// differ.
    Unlike(Path, Path),
    /// The path there, and how many instructions an activation may execute up to it and with it.
    TooLong(Path, u32),
}

/// The evidence of the first fault of a routine, by its position and rule.
pub fn evidence_at(
    alloc: Global,
    subject: Subject,
    at: u16,
    rule: Rule,
) -> Result<Evidence, AllocError>
    requires { IsFirstFaultOf subject at rule }
    ensures { IfOk result (λ evidence. Shows subject.entry at rule evidence) }
{
    match rule {
        Rule::Malformed => Ok(Evidence::Misplaced),
        Rule::Unreachable => Ok(Evidence::Unreached),
        _ => match subject.entry() {
            None => Ok(Evidence::NotEntered),
            Some(_) => evidence_along(alloc, subject, at, rule),
        },
    }
}

/// The evidence of the first fault of a routine that can be entered, at a position that is reached.
fn evidence_along(
    alloc: Global,
    subject: Subject,
    at: u16,
    rule: Rule,
) -> Result<Evidence, AllocError>
    requires first { IsFirstFaultOf subject at rule }
    requires formed { rule ≢ Rule.Malformed }
    requires reached { rule ≢ Rule.Unreachable }
    requires entered { entry_state subject ≢ None }
    ensures { IfOk result (λ evidence. Shows subject.entry at rule evidence) }
{
    let table = arrivals_to(alloc, &subject, at)?;
    let arrivals = Arrivals { subject, table };
    let Some(path) = arrivals.path_to(alloc, at)? else {
        unreachable!()
    };
    match rule {
        Rule::StatesDiffer => differing(alloc, &arrivals, at, path),
        Rule::TooLong => {
            let code = arrivals.subject.code();
            let count = certificate_through(alloc, code, at as usize)?;
            Ok(Evidence::TooLong(path, count))
        }
        _ => Ok(Evidence::Broken(path)),
    }
}

/// The evidence of a refusal. There is none where the refusal isn't about a routine: for want of
/// memory, or since the set has no device.
pub fn evidence_of(
    alloc: Global,
    set: &DriverSet,
    refusal: &Refusal,
) -> Result<Option<Evidence>, AllocError>
    requires { (refusal.now ≡ at_start Rule.Memory) ⊎ IsFirstFault set.now refusal.now }
    ensures { IfOk result (λ evidence. IsEvidence set.now refusal.now evidence) }
{
    if set.devices().is_empty() {
        return Ok(None);
    }
    match refusal.rule {
        Rule::Memory => Ok(None),
        rule => {
            let Some(subject) = Subject::of(set, refusal.driver, refusal.routine) else {
                unreachable!()
            };
            let evidence = evidence_at(alloc, subject, refusal.at, rule)?;
            Ok(Some(evidence))
        }
    }
}
