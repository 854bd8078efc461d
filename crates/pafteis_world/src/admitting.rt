//! The verdict on the set that bytes name.

ghost use Rattle.std.specs.Prelude.{◌≡◌, IfErr, IfOk, true, false};
ghost use Rattle.model.specs.Typable.{IsTypable};
ghost use Rattle.pafteis_world.specs.Judged.{IsJudged, IsTurnedAway, IsUnread, Names, is_image};
ghost use Rattle.pafteis_world.specs.Judged.{text_verdict};

use asm::{AsmFault, AsmKind};
use driver_set::DriverSet;
use image::ImageFault;
use model::abs::Rule;
use pafteis_values::verdict::Verdict;
use std::alloc::Global;
use verifier::{Accepted, verify};

/// The verdict on the set that the bytes of a text or of an image name.
pub fn judge(alloc: Global, bytes: &[u8]) -> Verdict
    ensures { IsJudged bytes.now result }
{
    match admit(alloc, bytes) {
        Ok(_accepted) => Verdict::Accepted,
        Err(verdict) => verdict,
    }
}

/// The set that the bytes of a text or of an image name, where it is accepted; else why not.
pub(crate) fn admit(alloc: Global, bytes: &[u8]) -> Result<Accepted, Verdict>
    ensures accepted { IfOk result (λ set. Names bytes.now set × IsTypable set) }
    ensures turned_away { IfErr result (IsTurnedAway bytes.now) }
{
    match set_of(alloc, bytes) {
        Ok(set) => admit_set(alloc, bytes, set),
        Err(verdict) => Err(verdict),
    }
}

/// A set that these bytes name, where it is accepted; else why it is refused.
fn admit_set(alloc: Global, bytes: &[u8], set: DriverSet) -> Result<Accepted, Verdict>
    requires { Names bytes.now set }
    ensures accepted { IfOk result (λ accepted. Names bytes.now accepted × IsTypable accepted) }
    ensures turned_away { IfErr result (IsTurnedAway bytes.now) }
{
    match verify(alloc, set) {
        Ok(accepted) => Ok(accepted),
        Err((_set, refusal)) => {
            if refusal.rule == Rule::Memory {
                return Err(Verdict::NoMemory);
            }
            Err(Verdict::Refused(refusal))
        }
    }
}

/// The set that the bytes of a text or of an image name, or why they name none.
fn set_of(alloc: Global, bytes: &[u8]) -> Result<DriverSet, Verdict>
    ensures names { IfOk result (Names bytes.now) }
    ensures unread { IfErr result (IsUnread bytes.now) }
{
    if begins_image(bytes) {
        set_of_image(alloc, bytes)
    } else {
        set_of_text(alloc, bytes)
    }
}

/// Whether bytes are those of an image.
fn begins_image(bytes: &[u8]) -> bool
    ensures { result ≡ is_image bytes.now }
{
    bytes.starts_with(&[0x44, 0x56, 0x42])
}

fn set_of_image(alloc: Global, bytes: &[u8]) -> Result<DriverSet, Verdict>
    requires { is_image bytes.now ≡ true }
    ensures names { IfOk result (Names bytes.now) }
    ensures unread { IfErr result (IsUnread bytes.now) }
{
    match image::decode(alloc, bytes) {
        Ok(set) => {
            let _sound = set.drivers();
            Ok(set)
        }
        Err(ImageFault::Memory) => Err(Verdict::NoMemory),
        Err(fault) => Err(Verdict::Image(fault)),
    }
}

fn set_of_text(alloc: Global, bytes: &[u8]) -> Result<DriverSet, Verdict>
    requires { is_image bytes.now ≡ false }
    ensures names { IfOk result (Names bytes.now) }
    ensures unread { IfErr result (IsUnread bytes.now) }
{
    match asm::assemble(alloc, bytes) {
        Ok(set) => Ok(set),
        Err(fault) => Err(text_verdict(fault)),
    }
}

/// What is said of a text with this fault.
fn text_verdict(fault: AsmFault) -> Verdict
    ensures { result ≡ text_verdict fault }
{
    match fault.kind {
        AsmKind::Memory => Verdict::NoMemory,
        _ => Verdict::Text(fault),
    }
}
