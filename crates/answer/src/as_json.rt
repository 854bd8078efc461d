//! Answers as lines of JSON, on the output whatever comes of it.

ghost use Rattle.std.specs.Prelude.{◌≡◌, IfOk};
ghost use Rattle.report_json.specs.Line.{json_line};
ghost use Rattle.answer.specs.Told.{fault_answer};

use crate::as_text::{Text, ended};
use crate::certified::certified_routines;
use crate::form::Form;
use crate::names::routine_names;
use drvhost_devices::fault::End;
use drvhost_devices::told::Told;
use image::DriverSet;
use model::abs::Refusal;
use report_json::fault::{FileFault, InputFault};
use report_json::json_lines::JsonLines;
use report_json::to_json::ToJson;
use report_json::verdict::{Acceptance, FileRefusal};
use std::alloc::{AllocError, Global};
use verifier::Accepted;

/// Answers as lines of JSON.
#[derive(Clone, Copy)]
pub struct Json;

impl Form for Json {
    ghost use Rattle.std.specs.Prelude.{◌≡◌, codes};
    ghost use Rattle.report_json.specs.declared.fault.InputFault.{InputFault};
    ghost use Rattle.drvhost_devices.specs.Answer.{faulty};
    ghost use Rattle.answer.specs.Check.{IsAcceptanceJson, IsRefusalJson};
    ghost use Rattle.answer.specs.Told.{IsFaultIn, IsUnopenedJson, fault_answer};

    ghost is_unopened = { λ _ name. IsUnopenedJson name };

    ghost is_unread = { λ _ _ answer. answer ≡ faulty (codes "read failed\n") };

    ghost is_faulty = { λ _ name bytes answer.
        (fault : InputFault) × IsFaultIn bytes fault × (answer ≡ fault_answer name fault) };

    ghost is_refused = { λ _ name _ set. IsRefusalJson name set };

    ghost is_accepted = { λ _ name bytes set. IsAcceptanceJson name bytes set };

    fn unopened(&self, alloc: Global, name: &str) -> Result<Told, AllocError> {
        told_fault(alloc, name, InputFault::Unreadable)
    }

    fn unread(&self, alloc: Global, name: &str) -> Result<Told, AllocError> {
        Text.unread(alloc, name)
    }

    fn faulty(
        &self,
        alloc: Global,
        name: &str,
        _bytes: &[u8],
        fault: InputFault,
    ) -> Result<Told, AllocError> {
        told_fault(alloc, name, fault)
    }

    fn refused(
        &self,
        alloc: Global,
        name: &str,
        _bytes: &[u8],
        _set: &DriverSet,
        refusal: &Refusal,
    ) -> Result<Told, AllocError> {
        let told = FileRefusal {
            file: name,
            refusal: *refusal,
        };
        Ok(ended(alloc, End::Stopped, line_of(alloc, &told)?))
    }

    fn accepted(
        &self,
        alloc: Global,
        name: &str,
        bytes: &[u8],
        accepted: &Accepted,
    ) -> Result<Told, AllocError> {
        let names = routine_names(alloc, bytes)?;
        let routines = certified_routines(alloc, accepted, names)?;
        let told = Acceptance {
            file: name,
            routines: routines.as_slice(),
        };
        Ok(ended(alloc, End::Complete, line_of(alloc, &told)?))
    }
}

/// A fault of the file of a name, told in JSON.
///
/// # Errors
///
/// When memory runs out.
pub fn told_fault(alloc: Global, name: &str, fault: InputFault) -> Result<Told, AllocError>
    ensures { IfOk result (λ answer. answer ≡ fault_answer name.now fault) }
{
    let line = line_of(alloc, &FileFault { file: name, fault })?;
    Ok(Told::of(2, line, Vec::new(alloc)))
}

/// The line of a value.
///
/// # Errors
///
/// When memory runs out.
pub fn line_of<T: ToJson>(alloc: Global, value: &T) -> Result<Vec<u8>, AllocError>
    ensures { IfOk result (λ line. line.items ≡ json_line (T.json value.now)) }
{
    let mut lines = JsonLines::new(alloc);
    lines.add(value)?;
    let mut line = Vec::new(alloc);
    line.extend_from_slice(lines.bytes())?;
    Ok(line)
}
