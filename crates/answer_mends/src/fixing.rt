//! Fixes: edits of whole lines of a text, which were judged by what they make of it.

ghost use Rattle.std.specs.Prelude.{IfOk};
ghost use Rattle.answer_mends.specs.Fix.{IsFix};

use crate::judging::extent_of;
use drvhost_devices::reading::begins_image;
use mend_edits::{Change, LineEdit, edited, edits_of};
use model::abs::Refusal;
use model::items::Items;
use std::alloc::{AllocError, Global};

/// The edits that changes of a text are which names a refused set, if they mend anything, and what
/// they put in is UTF-8; or none. An image has no lines.
///
/// # Errors
///
/// When memory runs out.
pub fn fix_by(
    alloc: Global,
    text: &[u8],
    refusal: &Refusal,
    changes: &[Change],
) -> Result<Items<LineEdit>, AllocError>
    ensures { IfOk result (IsFix refusal.now text.now) }
{
    let none = Items::of(Vec::new(alloc));
    if changes.is_empty() || begins_image(text) {
        return Ok(none);
    }
    match edits_of(alloc, changes)? {
        Some(edits) => judged(alloc, text, refusal, edits),
        None => Ok(none),
    }
}

/// Edits of a text, if they mend anything, or none.
fn judged(
    alloc: Global,
    text: &[u8],
    refusal: &Refusal,
    edits: Items<LineEdit>,
) -> Result<Items<LineEdit>, AllocError>
    ensures { IfOk result (IsFix refusal.now text.now) }
{
    let made = edited(alloc, text, edits.as_slice())?;
    match extent_of(alloc, made.as_slice(), refusal)? {
        Some(_extent) => Ok(edits),
        None => Ok(Items::of(Vec::new(alloc))),
    }
}
