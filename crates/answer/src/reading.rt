//! What the bytes of a file say.

ghost use Rattle.std.specs.Prelude.{◌≡◌, IfOk, false, true};
ghost use Rattle.drvhost_devices.specs.Answer.{is_image};
ghost use Rattle.answer.specs.Told.{SaysIn};

use asm::{AsmKind, assemble};
use drvhost_devices::reading::begins_image;
use image::{DriverSet, ImageFault, decode};
use report_json::fault::InputFault;
use std::alloc::{AllocError, Global};

/// The set that the bytes of a file name, an image's or a text's, or their first fault.
pub fn said_in(alloc: Global, bytes: &[u8]) -> Result<Result<DriverSet, InputFault>, AllocError>
    ensures { IfOk result (λ said. SaysIn bytes.now said) }
{
    if begins_image(bytes) {
        said_in_image(alloc, bytes)
    } else {
        said_in_text(alloc, bytes)
    }
}

/// What an image says.
fn said_in_image(alloc: Global, image: &[u8]) -> Result<Result<DriverSet, InputFault>, AllocError>
    requires { is_image image.now ≡ true }
    ensures { IfOk result (λ said. SaysIn image.now said) }
{
    match decode(alloc, image) {
        Ok(set) => Ok(Ok(set)),
        Err(ImageFault::Memory) => Err(AllocError),
        Err(fault) => Ok(Err(InputFault::Image(fault))),
    }
}

/// What a text says.
fn said_in_text(alloc: Global, text: &[u8]) -> Result<Result<DriverSet, InputFault>, AllocError>
    requires { is_image text.now ≡ false }
    ensures { IfOk result (λ said. SaysIn text.now said) }
{
    match assemble(alloc, text) {
        Ok(set) => Ok(Ok(set)),
        Err(fault) if matches!(fault.kind, AsmKind::Memory) => Err(AllocError),
        Err(fault) => Ok(Err(InputFault::Text(fault))),
    }
}
