//! What bytes begin with: a certain word, a word up to what parts it from the next, a number in
//! decimal digits.

ghost use Rattle.std.specs.Prelude.{◌≡◌, ◌+◌, ◌<◌, ◌≤◌, ◌++◌, IfSome, bytes_eq, length, take};
ghost use Rattle.std.specs.Str.Parse.{digits_value};
ghost use Rattle.text.specs.Digits.{BeginsWith, Digits};

/// What stands behind this word, if the bytes begin with it.
#[inline(always)]
pub fn after_word<'a>(bytes: &'a [u8], word: &[u8]) -> Option<&'a [u8]>
    ensures { IfSome result (λ rest. bytes.now ≡ word.now ++ rest.now) }
{
    if bytes.len() < word.len() {
        return None;
    }
    let (head, rest) = bytes.split_at(word.len());
    if are_same(head, word) {
        Some(rest)
    } else {
        None
    }
}

/// Whether as many bytes are the same: of a word that is written out, this becomes a comparison or
/// two, where `==` has branches and a call.
#[inline(always)]
fn are_same(bytes: &[u8], word: &[u8]) -> bool
    requires { length bytes.now ≡ length word.now }
    ensures { result ≡ bytes_eq bytes.now word.now }
{
    let mut same = true;
    let mut i = word.len();
    while i > 0 {
        i -= 1;
        same = (bytes[i] == word[i]) & same;
    }
    same
}

/// A word, and what stands behind it.
#[derive(Drop)]
pub struct Parted<'a> {
    pub word: &'a [u8],
    pub rest: &'a [u8],
}

/// The bytes up to the first that parts words.
#[tactic(auto, using(crate::proofs::Digits::parted))]
pub fn word_at_head(bytes: &[u8]) -> Parted<'_>
    ensures { bytes.now ≡ result.word.now ++ result.rest.now }
{
    for (i, byte) in bytes.iter().enumerate() {
        if matches!(*byte, b' ' | b':' | b';') {
            return Parted {
                word: &bytes[..i],
                rest: &bytes[i..],
            };
        }
    }
    Parted {
        word: bytes,
        rest: &[],
    }
}

/// A number, and what stands after its digits.
#[derive(Drop)]
pub struct Numbered<'a> {
    pub number: u64,
    pub rest: &'a [u8],
}

/// The number that one or two digits at the head of these bytes write. What stands after them may
/// be another digit.
#[tactic(auto, using(crate::proofs::Digits::one_digit))]
pub fn short_number(bytes: &[u8]) -> Option<Numbered<'_>>
    ensures read { IfSome result (λ found. BeginsWith 2 bytes.now found.number found.rest.now) }
    ensures small { IfSome result (λ found. found.number < 100) }
{
    let (first, rest) = bytes.split_first()?;
    let digit_at_head = digit(*first)?;
    if let Some((second, rest)) = rest.split_first() {
        if let Some(unit) = digit(*second) {
            let number = u64::from(digit_at_head * 10 + unit);
            return Some(Numbered { number, rest });
        }
    }
    let number = u64::from(digit_at_head);
    Some(Numbered { number, rest })
}

/// Numbers that take another digit, at most: ten times as much is below 2^64.
const MOST_TO_GROW: u64 = 1_000_000_000_000_000_000;

/// The number that the digits at the head of these bytes write, if there is one and it isn't far
/// out of range.
pub fn number_at_head(bytes: &[u8]) -> Option<Numbered<'_>>
    ensures { IfSome result (λ found. BeginsWith (length bytes.now) bytes.now found.number
        found.rest.now) }
{
    let mut number: u64 = 0;
    for (i, byte) in bytes.iter().enumerate() {
        match digit(*byte) {
            Some(digit) => {
                if number > MOST_TO_GROW {
                    return None;
                }
                number = number * 10 + u64::from(digit);
            }
            None => return after(number, i, bytes),
        }
    }
    after(number, bytes.len(), bytes)
}

/// What a decimal digit stands for.
#[inline]
pub fn digit(byte: u8) -> Option<u8>
    ensures { IfSome result (λ digit. (digit < 10) × (byte ≡ 48 + digit)) }
{
    match byte {
        b'0'..=b'9' => Some(byte - b'0'),
        _ => None,
    }
}

/// The number that so many digits write, if there are any, and what stands after them.
fn after(number: u64, digits: usize, bytes: &[u8]) -> Option<Numbered<'_>>
    requires within { digits ≤ length bytes.now }
    requires digits { Digits (take digits bytes.now) }
    requires number { number ≡ digits_value 10 (take digits bytes.now) }
    ensures { IfSome result (λ found. BeginsWith (length bytes.now) bytes.now found.number
        found.rest.now) }
{
    if digits == 0 {
        return None;
    }
    Some(Numbered {
        number,
        rest: &bytes[digits..],
    })
}
