//! The verdict on a set.

ghost use Rattle.std.specs.Prelude.{IfOk};
ghost use Rattle.drvhost_devices.specs.Device.{Bytes};
ghost use Rattle.drvhost_devices.specs.Ends.{IsCheckOf};
ghost use Rattle.answer.specs.Check.{IsCheckJsonOf};

use crate::as_json::Json;
use crate::as_text::Text;
use crate::content::Given;
use crate::deliver::answer_to;
use crate::form::Form;
use crate::judged::Judged;
use crate::set::OnSet;
use drvhost_devices::told::Told;
use std::alloc::{AllocError, Global};
use verifier::Accepted;

/// The job of judging a set.
#[derive(Clone, Copy)]
pub struct Judgement;

impl<F: Form> OnSet<F> for Judgement {
    ghost right = { λ _ form name bytes set. F.is_accepted form name bytes set };

    fn on(
        &self,
        form: &F,
        alloc: Global,
        given: &Given<'_>,
        accepted: &Accepted,
    ) -> Result<Told, AllocError> {
        form.accepted(alloc, given.name, given.bytes, accepted)
    }
}

/// The verdict on the set that bytes name, as text.
///
/// # Errors
///
/// When memory runs out.
pub fn check(alloc: Global, bytes: &[u8]) -> Result<Told, AllocError>
    ensures { IfOk result (IsCheckOf (Bytes bytes.now)) }
{
    let judged = Judged {
        job: Judgement,
        form: Text,
    };
    Ok(answer_to(&judged, alloc, "", bytes)?)
}

/// The verdict on the set that the bytes of the file of a name name, as a line of JSON.
///
/// # Errors
///
/// When memory runs out.
pub fn check_json(alloc: Global, name: &str, bytes: &[u8]) -> Result<Told, AllocError>
    ensures { IfOk result (IsCheckJsonOf name.now (Bytes bytes.now)) }
{
    let judged = Judged {
        job: Judgement,
        form: Json,
    };
    Ok(answer_to(&judged, alloc, name, bytes)?)
}
