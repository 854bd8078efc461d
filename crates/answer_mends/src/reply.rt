//! What is answered on a set, whatever is done with its mends.

ghost use Rattle.std.specs.Prelude.{◌≡◌, ◌++◌, IfOk, OnOk};
ghost use Rattle.drvhost_devices.specs.Answer.{is_image};
ghost use Rattle.report.specs.Verdict.{refusal_line};
ghost use Rattle.answer_mends.specs.Mend.{end_of, none_told, nothing_told, text_of, told};

use crate::judged_offers::{Offer, add_offers};
use asm_line::listing;
use drvhost_devices::fault::End;
use drvhost_devices::reading::begins_image;
use image::DriverSet;
use model::abs::Refusal;
use report::lines::Lines;
use std::alloc::{AllocError, Global};

/// That a set is accepted already.
pub(crate) fn nothing(alloc: Global) -> Result<Vec<u8>, AllocError>
    ensures { IfOk result (λ text. text.items ≡ nothing_told) }
{
    let mut text = Vec::new(alloc);
    text.extend_from_slice(b"accepted: nothing to mend\n")?;
    Ok(text)
}

/// The text that is mended: the file's own, or of an image the listing of its set.
pub(crate) fn text_of(alloc: Global, bytes: &[u8], set: &DriverSet) -> Result<Vec<u8>, AllocError>
    ensures { IfOk result
        (λ text. text.items ≡ text_of (is_image bytes.now) bytes.now set.now) }
{
    if begins_image(bytes) {
        return Ok(listing(alloc, set)?.into_bytes());
    }
    let mut text = Vec::new(alloc);
    text.extend_from_slice(bytes)?;
    Ok(text)
}

/// The line of a refusal, and behind it what is offered, or that there is nothing.
pub(crate) fn told(
    alloc: Global,
    tries: u64,
    refusal: &Refusal,
    offers: &[Offer],
) -> Result<Vec<u8>, AllocError>
    ensures { IfOk result
        (λ text. text.items ≡ refusal_line refusal.now ++ told tries offers.now) }
{
    let mut line = Lines::new(alloc)?;
    line.refusal(refusal);
    let mut text = Vec::new(alloc);
    text.extend_from_slice(line.bytes())?;
    if offers.is_empty() {
        add_none(alloc, &mut text, tries)?;
    } else {
        add_offers(alloc, &mut text, offers)?;
    }
    Ok(text)
}

/// Adds that there is none.
fn add_none(alloc: Global, text: &mut Vec<u8>, tries: u64) -> Result<(), AllocError>
    ensures { OnOk result (text.new.items ≡ text.old.items ++ none_told tries) }
{
    let mut none = String::new(alloc);
    write!(none, "no mend found in {tries} tries\n")?;
    text.extend_from_slice(none.as_bytes())?;
    Ok(())
}

/// How the job ends: rightly where the whole is mended.
pub(crate) fn end_of(whole: bool) -> End
    ensures { result ≡ end_of whole }
{
    if whole { End::Complete } else { End::Stopped }
}
