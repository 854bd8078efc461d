//! What a diff of a text mends.

ghost use Rattle.std.specs.Prelude.{◌≡◌, ◌≢◌, IfOk, IfSome, OnOk, true};
ghost use Rattle.answer_mends.specs.Mend.{IsLater, IsOf, Makes, NamesOf, is_whole};

use drvhost_devices::fault::Fault;
use drvhost_devices::reading::set_of;
use image::DriverSet;
use mend_edits::made_by;
use model::abs::{Refusal, Rule};
use model::items::Items;
use std::alloc::{AllocError, Global};
use verifier::verify;

/// How much of a text a diff mends.
#[derive(Clone, Copy)]
pub enum Extent {
    /// All of it: the set that it names then is accepted.
    Whole,
    /// A part of it: the first fault of the set that it names then, which is in a later routine.
    Part(Refusal),
}

impl Extent {
    /// Whether it is the whole.
    pub fn is_whole(self) -> bool
        ensures { result ≡ is_whole self }
    {
        matches!(self, Extent::Whole)
    }
}

/// What a diff makes of a text, and how much that mends.
#[derive(Drop)]
pub(crate) struct Judged {
    pub extent: Extent,
    pub made: Items<u8>,
}

/// What a diff makes of a text, if it mends anything, by the set that the text names then, and why
/// the set that it names without it is refused.
pub(crate) fn judge(
    alloc: Global,
    text: &[u8],
    refusal: &Refusal,
    diff: &[u8],
) -> Result<Option<Judged>, AllocError>
    ensures { IfOk result (λ found. IfSome found
        (λ judged. Makes judged.extent refusal.now text.now diff.now judged.made)) }
{
    let Some(made) = made_by(alloc, diff, text)? else {
        return Ok(None);
    };
    match extent_of(alloc, made.as_slice(), refusal)? {
        Some(extent) => Ok(Some(Judged { extent, made })),
        None => Ok(None),
    }
}

/// How much is mended where a text is made of one that names a refused set.
pub(crate) fn extent_of(
    alloc: Global,
    made: &[u8],
    refusal: &Refusal,
) -> Result<Option<Extent>, AllocError>
    ensures { IfOk result
        (λ judged. IfSome judged (λ extent. NamesOf extent refusal.now made.now)) }
{
    match set_of(alloc, made) {
        Ok(set) => judge_set(alloc, set, refusal),
        Err(Fault::Memory) => Err(AllocError),
        Err(_) => Ok(None),
    }
}

/// How much is mended where this set is made of one that is refused.
fn judge_set(alloc: Global, set: DriverSet, refusal: &Refusal) -> Result<Option<Extent>, AllocError>
    ensures { IfOk result (λ judged. IfSome judged (λ extent. IsOf extent refusal.now set)) }
{
    match verify(alloc, set) {
        Ok(_accepted) => Ok(Some(Extent::Whole)),
        Err((_set, left)) => {
            verdict(&left)?;
            Ok(extent_left(&left, refusal))
        }
    }
}

/// Nothing, where a refusal is a verdict, and not one for want of memory.
pub(crate) fn verdict(refusal: &Refusal) -> Result<(), AllocError>
    ensures { OnOk result (refusal.now.rule ≢ Rule.Memory) }
{
    if refusal.rule == Rule::Memory {
        return Err(AllocError);
    }
    Ok(())
}

/// How much is mended where this is left.
fn extent_left(left: &Refusal, refusal: &Refusal) -> Option<Extent>
    ensures { IfSome result
        (λ extent. (extent ≡ Extent.Part left.now) × IsLater left.now refusal.now) }
{
    if is_later(left, refusal) {
        Some(Extent::Part(*left))
    } else {
        None
    }
}

/// Whether a refusal speaks of a later routine than another one.
fn is_later(left: &Refusal, refusal: &Refusal) -> bool
    ensures { result ≡ true → IsLater left.now refusal.now }
{
    left.driver > refusal.driver
        || (left.driver == refusal.driver && left.routine > refusal.routine)
}
