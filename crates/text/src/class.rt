//! What a token is. Position decides what a token means, so each form is a test of its own: `_` is
//! a name and a word.

ghost use Rattle.std.specs.Prelude.{◌≡◌, bytes_eq, option_map};
ghost use Rattle.std.specs.List.{list_all};
ghost use Rattle.text.specs.Class.{begins_name, is_name, is_name_byte, is_name_start, is_number};
ghost use Rattle.text.specs.Class.{is_token, is_word, is_word_byte, label_name};

use crate::number::is_numeral;

/// The bytes of a name, at most.
pub const MAX_NAME: usize = 32;

/// Whether the token is these bytes.
pub fn is(token: &[u8], word: &[u8]) -> bool
    ensures { result ≡ bytes_eq token.now word.now }
{
    token == word
}

/// Whether the token is a name: a small letter or `_`, then small letters, digits and `_`, in all
/// at most `MAX_NAME` bytes.
pub fn is_name(token: &[u8]) -> bool
    ensures { result ≡ is_name token.now }
{
    begins_name(token) && token.len() <= MAX_NAME && holds_name_bytes(token)
}

/// Whether the token is a word in capitals and underscores.
pub fn is_word(token: &[u8]) -> bool
    ensures { result ≡ is_word token.now }
{
    !token.is_empty() && holds_word_bytes(token)
}

/// Whether the token is a number: decimal digits, or `0x` and hexadecimal digits of either case, of
/// any length.
pub fn is_number(token: &[u8]) -> bool
    ensures { result ≡ is_number token.now }
{
    match token.strip_prefix(b"0x".as_slice()) {
        Some(digits) => is_numeral(digits, 16),
        None => is_numeral(token, 10),
    }
}

/// The name of a label: what stands before one colon at the end of the token, if that is a name.
pub fn label_name(token: &[u8]) -> Option<&[u8]>
    ensures { option_map (λ name. name.now) result ≡ label_name token.now }
{
    let (last, name) = token.split_last()?;
    if *last == b':' && is_name(name) {
        Some(name)
    } else {
        None
    }
}

/// Whether the token is of one of the four forms: a name, a word, a number, a name with a colon.
pub fn is_token(token: &[u8]) -> bool
    ensures { result ≡ is_token token.now }
{
    is_name(token) || is_word(token) || is_number(token) || label_name(token).is_some()
}

/// Whether the first byte may begin a name.
fn begins_name(token: &[u8]) -> bool
    ensures { result ≡ begins_name token.now }
{
    match token.first() {
        Some(first) => is_name_start(*first),
        None => false,
    }
}

/// Whether each byte may stand in a name.
fn holds_name_bytes(token: &[u8]) -> bool
    ensures { result ≡ list_all is_name_byte token.now }
{
    token.iter().all(|byte| is_name_byte(*byte))
}

/// Whether each byte may stand in a word.
fn holds_word_bytes(token: &[u8]) -> bool
    ensures { result ≡ list_all is_word_byte token.now }
{
    token.iter().all(|byte| is_word_byte(*byte))
}

/// Whether a name may begin with the byte.
fn is_name_start(byte: u8) -> bool
    ensures { result ≡ is_name_start byte }
{
    byte.is_ascii_lowercase() || byte == b'_'
}

/// Whether the byte may stand in a name.
fn is_name_byte(byte: u8) -> bool
    ensures { result ≡ is_name_byte byte }
{
    is_name_start(byte) || byte.is_ascii_digit()
}

/// Whether the byte may stand in a word.
fn is_word_byte(byte: u8) -> bool
    ensures { result ≡ is_word_byte byte }
{
    byte.is_ascii_uppercase() || byte == b'_'
}
