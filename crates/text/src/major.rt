//! The words of major functions.

ghost use Rattle.std.specs.Prelude.{◌≡◌};
ghost use Rattle.text.specs.Major.{major_of, major_text};

use crate::class::is;
use model::status::Major;

/// The major function that the token names.
pub fn major_of(token: &[u8]) -> Option<Major>
    ensures { result ≡ major_of token.now }
{
    if is(token, b"READ") {
        Some(Major::Read)
    } else if is(token, b"WRITE") {
        Some(Major::Write)
    } else if is(token, b"CONTROL") {
        Some(Major::Control)
    } else {
        None
    }
}

/// The word of a major function.
pub fn major_text(major: Major) -> &'static str
    ensures { result.now ≡ major_text major }
{
    match major {
        Major::Read => "READ",
        Major::Write => "WRITE",
        Major::Control => "CONTROL",
    }
}
