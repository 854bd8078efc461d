//! Which version of the library this is.

ghost use Rattle.std.specs.Prelude.{◌≡◌, Some};
ghost use Rattle.pafteis.specs.Called.{PutsBytes};
ghost use Rattle.pafteis.specs.declared.version.TheConstants.{VERSION, VERSION_NUMBER};

use crate::texts::put_bytes;

/// The version: a million for the major number, a thousand for the minor one, and the patch.
pub const VERSION_NUMBER: u32 = 1_000_000;

/// The library's name and its version.
pub const VERSION: &[u8] = b"pafteis 1.0.0\n";

/// Tells the version as a number.
#[unsafe(no_mangle)]
pub extern "C" fn pafteis_version_number() -> u32
    ensures { result ≡ VERSION_NUMBER }
{
    VERSION_NUMBER
}

/// Puts the library's name and its version into a buffer.
#[unsafe(no_mangle)]
pub extern "C" fn pafteis_version(buffer: &mut [u8], needed: &mut usize) -> u32
    ensures { PutsBytes (Some VERSION.now) buffer.old buffer.new needed.new result }
{
    put_bytes(VERSION, buffer, needed)
}
