//! Names of files as words of a command that is pasted into a shell.

ghost use Rattle.std.specs.Prelude.{◌≡◌, ◌++◌, OnOk};
ghost use Rattle.std.specs.List.{list_all};
ghost use Rattle.answer_explain.specs.Quoting.{all_between, between, head_of, is_bare, is_plain};
ghost use Rattle.answer_explain.specs.Quoting.{quoted, word_of};

use std::alloc::AllocError;

/// Adds the word by which a command names the file of a name.
///
/// # Errors
///
/// When memory runs out.
pub(crate) fn add_word(line: &mut Vec<u8>, name: &[u8]) -> Result<(), AllocError>
    ensures { OnOk result (line.new.items ≡ line.old.items ++ word_of name.now) }
{
    line.extend_from_slice(head_of(name))?;
    add_quoted(line, name)
}

/// What stands before a name that would be an option: the folder where the command runs. `-` alone
/// is the standard input.
fn head_of(name: &[u8]) -> &'static [u8]
    ensures { result.now ≡ head_of name.now }
{
    if name.len() > 1 && name[0] == b'-' {
        b"./"
    } else {
        b""
    }
}

/// Adds a word that a shell reads as these bytes.
fn add_quoted(line: &mut Vec<u8>, bytes: &[u8]) -> Result<(), AllocError>
    ensures { OnOk result (line.new.items ≡ line.old.items ++ quoted bytes.now) }
{
    if is_bare(bytes) {
        line.extend_from_slice(bytes)?;
        return Ok(());
    }
    line.push(b'\'')?;
    add_between(line, bytes)?;
    line.push(b'\'')?;
    Ok(())
}

/// Whether a shell reads bytes as they stand.
fn is_bare(bytes: &[u8]) -> bool
    ensures { result ≡ is_bare bytes.now }
{
    !bytes.is_empty() && are_plain(bytes)
}

/// Whether each byte is one that a shell takes as it stands.
fn are_plain(bytes: &[u8]) -> bool
    ensures { result ≡ list_all is_plain bytes.now }
{
    let mut plain = true;
    for byte in bytes {
        plain &= is_plain(*byte);
    }
    plain
}

/// Whether a shell takes a byte as it stands.
fn is_plain(byte: u8) -> bool
    ensures { result ≡ is_plain byte }
{
    byte.is_ascii_alphanumeric() || matches!(byte, b'%' | b'+'..=b'/' | b':' | b'=' | b'@' | b'_')
}

/// Adds bytes that stand between single quotes.
fn add_between(line: &mut Vec<u8>, bytes: &[u8]) -> Result<(), AllocError>
    ensures { OnOk result (line.new.items ≡ line.old.items ++ all_between bytes.now) }
{
    for byte in bytes {
        add_byte(line, *byte)?;
    }
    Ok(())
}

/// Adds a byte that stands between single quotes: behind a quote they are opened again.
fn add_byte(line: &mut Vec<u8>, byte: u8) -> Result<(), AllocError>
    ensures { OnOk result (line.new.items ≡ line.old.items ++ between byte) }
{
    if byte == b'\'' {
        line.extend_from_slice(b"'\\''")?;
        return Ok(());
    }
    line.push(byte)?;
    Ok(())
}
