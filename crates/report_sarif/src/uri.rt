//! The name of a file as a relative reference.

ghost use Rattle.std.specs.Prelude.{◌≡◌, ◌++◌, ◌<◌, IfOk, OnOk, string_bytes};
ghost use Rattle.report_sarif.specs.Uri.{behind, escaped, hexadecimal, is_plain, is_slash, uri_of};

use std::alloc::{AllocError, Global};

/// The name of a file as a relative reference (3.10.1; RFC 3986, 4.2).
pub(crate) fn uri_of(alloc: Global, file: &str) -> Result<String, AllocError>
    ensures { IfOk result (λ uri. string_bytes uri ≡ uri_of file.now) }
{
    let mut uri = String::new(alloc);
    let mut slashed = false;
    for byte in file.as_bytes() {
        add_behind(&mut uri, slashed, *byte)?;
        slashed = is_slash(*byte);
    }
    Ok(uri)
}

/// Adds a byte, unless it is a slash behind a slash.
fn add_behind(uri: &mut String, slashed: bool, byte: u8) -> Result<(), AllocError>
    ensures { OnOk result (string_bytes uri.new ≡ string_bytes uri.old ++ behind slashed byte) }
{
    if slashed && is_slash(byte) {
        return Ok(());
    }
    add_escaped(uri, byte)
}

/// Whether a byte parts the names of a path.
fn is_slash(byte: u8) -> bool
    ensures { result ≡ is_slash byte }
{
    byte == b'/'
}

/// Adds a byte, escaped or not.
fn add_escaped(uri: &mut String, byte: u8) -> Result<(), AllocError>
    ensures { OnOk result (string_bytes uri.new ≡ string_bytes uri.old ++ escaped byte) }
{
    if is_plain(byte) {
        return uri.push(byte as char);
    }
    uri.push('%')?;
    uri.push(hexadecimal(byte / 16) as char)?;
    uri.push(hexadecimal(byte % 16) as char)
}

/// Whether a byte stands for itself.
fn is_plain(byte: u8) -> bool
    ensures { result ≡ is_plain byte }
{
    byte.is_ascii_alphanumeric() || matches!(byte, b'-' | b'.' | b'_' | b'~' | b'/')
}

/// A hexadecimal digit in capitals.
fn hexadecimal(digit: u8) -> u8
    requires { digit < 16 }
    ensures { result ≡ hexadecimal digit }
{
    if digit < 10 {
        b'0' + digit
    } else {
        b'A' - 10 + digit
    }
}
