//! Tokens read as numbers.

ghost use Rattle.std.specs.Prelude.{◌≡◌, ◌≤◌, ◌<◌, ◌^◌, true};
ghost use Rattle.std.specs.Char.{is_digit};
ghost use Rattle.std.specs.List.{list_all};
ghost use Rattle.std.specs.Option.{SomeIff};
ghost use Rattle.std.specs.Str.Parse.{digits_value};
ghost use Rattle.text.specs.Class.{is_numeral};
ghost use Rattle.text.specs.Number.{number_in, numbered_in, numeral_in};

/// A token read as a number.
#[derive(Clone, Copy)]
pub enum Numeral {
    /// It isn't of the form that is read.
    Other,
    /// It is of the form, and its number is 2^64 or more.
    TooLarge,
    /// Its number.
    Number(u64),
}

/// A number of a text: decimal digits, or `0x` and hexadecimal digits, of any length.
pub fn number(token: &[u8]) -> Numeral
    ensures { result ≡ number_in token.now }
{
    match token.strip_prefix(b"0x".as_slice()) {
        Some(digits) => read_digits(digits, 16),
        None => read_digits(token, 10),
    }
}

/// The number of a register or another operand that is one letter and decimal digits.
pub fn numbered(letter: u8, token: &[u8]) -> Numeral
    ensures { result ≡ numbered_in letter token.now }
{
    match token.split_first() {
        Some((first, digits)) if *first == letter => read_digits(digits, 10),
        _ => Numeral::Other,
    }
}

/// The number that digits write, if they are digits and at least one.
fn read_digits(digits: &[u8], radix: u32) -> Numeral
    requires low { 2 ≤ radix }
    requires high { radix ≤ 16 }
    ensures { result ≡ numeral_in radix digits.now }
{
    if !is_numeral(digits, radix) {
        return Numeral::Other;
    }
    match value(digits, radix) {
        Some(value) => Numeral::Number(value),
        None => Numeral::TooLarge,
    }
}

/// Whether these are digits, at least one.
pub fn is_numeral(digits: &[u8], radix: u32) -> bool
    requires low { 2 ≤ radix }
    requires high { radix ≤ 16 }
    ensures { result ≡ is_numeral radix digits.now }
{
    !digits.is_empty() && holds_digits(digits, radix)
}

/// Whether each byte is a digit.
fn holds_digits(bytes: &[u8], radix: u32) -> bool
    requires low { 2 ≤ radix }
    requires high { radix ≤ 16 }
    ensures { result ≡ list_all (λ b. is_digit b radix) bytes.now }
{
    bytes.iter().all(|byte| char::from(*byte).is_digit(radix))
}

/// The number that digits write, if it is below 2^64.
fn value(digits: &[u8], radix: u32) -> Option<u64>
    requires low { 2 ≤ radix }
    requires high { radix ≤ 16 }
    requires digits { is_numeral radix digits.now ≡ true }
    ensures { SomeIff result (digits_value radix digits.now < 2 ^ 64)
        (digits_value radix digits.now) }
{
    let mut value: u64 = 0;
    for byte in digits {
        let digit = char::from(*byte).to_digit(radix)?;
        value = value
            .checked_mul(u64::from(radix))?
            .checked_add(u64::from(digit))?;
    }
    Some(value)
}
