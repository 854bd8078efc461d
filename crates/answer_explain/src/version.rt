//! Which program this is.

ghost use Rattle.std.specs.Prelude.{IfOk};
ghost use Rattle.drvhost_devices.specs.Answer.{IsVersion};

use answer::as_text::ended;
use drvhost_devices::fault::End;
use drvhost_devices::told::Told;
use std::alloc::{AllocError, Global};

/// The program's name and its version.
const VERSION: &[u8] = b"drvhost 1.0.0\n";

/// The program's name and its version.
///
/// # Errors
///
/// When memory runs out.
pub fn version(alloc: Global) -> Result<Told, AllocError>
    ensures { IfOk result IsVersion }
{
    let mut text = Vec::new(alloc);
    text.extend_from_slice(VERSION)?;
    Ok(ended(alloc, End::Complete, text))
}
