//! Words as the text of an element.

ghost use Rattle.std.specs.Prelude.{◌≡◌, ◌++◌, OnOk, string_bytes};
ghost use Rattle.draw_picture.specs.Escape.{escaped, escaped_byte};

use std::alloc::AllocError;

/// Adds a byte, as the text of an element has it.
fn add_byte(words: &mut String, byte: u8) -> Result<(), AllocError>
    ensures { OnOk result
        (string_bytes words.new ≡ string_bytes words.old ++ escaped_byte byte) }
{
    match byte {
        b'<' => words.push_str("&lt;"),
        b'>' => words.push_str("&gt;"),
        b'&' => words.push_str("&amp;"),
        b'"' => words.push_str("&quot;"),
        b' '..=b'~' => words.push(char::from(byte)),
        _ => words.push_str("?"),
    }
}

/// Adds bytes as the text of an element: what is markup there is written as its entity, and what is
/// no printable ASCII is written as a question mark.
pub(crate) fn add_escaped(words: &mut String, bytes: &[u8]) -> Result<(), AllocError>
    ensures { OnOk result
        (string_bytes words.new ≡ string_bytes words.old ++ escaped bytes.now) }
{
    for byte in bytes {
        add_byte(words, *byte)?;
    }
    Ok(())
}
