//! Mends of a driver set's text, offered as diffs.

ghost use Rattle.std.specs.Prelude.{IfOk};
ghost use Rattle.drvhost_devices.specs.Device.{Bytes};
ghost use Rattle.answer_mends.specs.Mend.{IsMendOf};

use crate::judged_offers::{any_whole, make_offers};
use crate::reply::{end_of, nothing, text_of, told};
use answer::as_text::{Text, ended};
use answer::check::Judgement;
use answer::deliver::answer_to;
use answer::form::Form;
use answer::judged::Judged;
use drvhost_devices::fault::End;
use drvhost_devices::told::Told;
use image::DriverSet;
use model::abs::Refusal;
use report_json::fault::InputFault;
use std::alloc::{AllocError, Global};
use verifier::Accepted;

/// How mends are looked for.
#[derive(Clone, Copy)]
pub struct MendOptions {
    /// How often a mend is tried of each faulty routine.
    pub tries: u64,
}

/// Verdicts as mends: of a refused set, how its text may be changed so that the set is accepted: up
/// to three offers, each with a sentence for each change and a diff. Of an image its listing is
/// mended. The exit status is 0 where the set is accepted already or the whole text is mended, 1
/// where a part of it is or nothing.
#[derive(Clone, Copy)]
pub struct MendsText {
    pub asked: MendOptions,
}

impl Form for MendsText {
    ghost use Rattle.std.specs.Prelude.{◌≡◌, ℕ, List, Err, codes};
    ghost use Rattle.drvhost_devices.specs.Answer.{FileSays, IsUnopened, ended, faulty, is_image};
    ghost use Rattle.drvhost_devices.specs.declared.fault.End.TheVariants.{Complete};
    ghost use Rattle.answer_mends.specs.Mend.{IsMended, nothing_told, text_of};

    ghost is_unopened = { λ _ name. IsUnopened name };

    ghost is_unread = { λ _ _ answer. answer ≡ faulty (codes "read failed\n") };

    ghost is_faulty = { λ _ _ bytes answer.
        (line : List ℕ) × FileSays bytes (Err line) × (answer ≡ faulty line) };

    ghost is_refused = { λ mends _ bytes set.
        IsMended mends.asked (text_of (is_image bytes) bytes set) set };

    ghost is_accepted = { λ _ _ _ _ answer. answer ≡ ended Complete nothing_told };

    fn unopened(&self, alloc: Global, name: &str) -> Result<Told, AllocError> {
        Text.unopened(alloc, name)
    }

    fn unread(&self, alloc: Global, name: &str) -> Result<Told, AllocError> {
        Text.unread(alloc, name)
    }

    fn faulty(
        &self,
        alloc: Global,
        name: &str,
        bytes: &[u8],
        fault: InputFault,
    ) -> Result<Told, AllocError> {
        Text.faulty(alloc, name, bytes, fault)
    }

    fn refused(
        &self,
        alloc: Global,
        _name: &str,
        bytes: &[u8],
        set: &DriverSet,
        refusal: &Refusal,
    ) -> Result<Told, AllocError> {
        let tries = self.asked.tries;
        let text = text_of(alloc, bytes, set)?;
        let offers = make_offers(alloc, tries, text.as_slice(), set, refusal)?;
        let offers = offers.as_slice();
        let said = told(alloc, tries, refusal, offers)?;
        Ok(ended(alloc, end_of(any_whole(offers)), said))
    }

    fn accepted(
        &self,
        alloc: Global,
        _name: &str,
        _bytes: &[u8],
        _accepted: &Accepted,
    ) -> Result<Told, AllocError> {
        Ok(ended(alloc, End::Complete, nothing(alloc)?))
    }
}

/// Mends of the text that bytes are, or of the listing of an image.
///
/// # Errors
///
/// When memory runs out.
pub fn mend(alloc: Global, asked: MendOptions, bytes: &[u8]) -> Result<Told, AllocError>
    ensures { IfOk result (IsMendOf asked (Bytes bytes.now)) }
{
    let judged = Judged {
        job: Judgement,
        form: MendsText { asked },
    };
    Ok(answer_to(&judged, alloc, "", bytes)?)
}
