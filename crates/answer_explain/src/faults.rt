//! The evidence of each fault of a set.

ghost use Rattle.std.specs.Prelude.{◌≡◌, IfOk, IsTrue};
ghost use Rattle.model.specs.Typable.{at_start};
ghost use Rattle.verifier_evidence.specs.Evidence.{IsEvidence};
ghost use Rattle.answer_explain.specs.Faults.{IsFaultOf};

use driver_set::DriverSet;
use model::abs::{Refusal, Rule};
use std::alloc::{AllocError, Global};
use verifier_evidence::{Evidence, Subject, evidence_at};

/// The evidence of a fault of a set: there is none for that of a set without devices.
///
/// # Errors
///
/// When memory runs out.
pub(crate) fn evidence_of_fault(
    alloc: Global,
    set: &DriverSet,
    refusal: &Refusal,
) -> Result<Option<Evidence>, AllocError>
    requires { IsFaultOf set.now refusal.now }
    ensures { IfOk result (λ evidence. IsEvidence set.now refusal.now evidence) }
{
    if set.devices().is_empty() && is_at_start(refusal) {
        return Ok(None);
    }
    let Some(subject) = Subject::of(set, refusal.driver, refusal.routine) else {
        unreachable!()
    };
    let evidence = evidence_at(alloc, subject, refusal.at, refusal.rule)?;
    Ok(Some(evidence))
}

/// Whether a refusal is that of a malformed set, and of none of its routines.
fn is_at_start(refusal: &Refusal) -> bool
    ensures is { IsTrue result → refusal.now ≡ at_start Rule.Malformed }
    ensures not { refusal.now ≡ at_start Rule.Malformed → IsTrue result }
{
    let Refusal {
        driver,
        routine,
        at,
        rule,
    } = *refusal;
    driver == 0 && routine == 0 && at == 0 && rule == Rule::Malformed
}
