//! Lines that are ready to be stored: one digit alone is put in.

ghost use Rattle.std.specs.Prelude.{◌≡◌, ◌+◌, ◌*◌, ◌/◌, ◌<◌, ◌≤◌, ◌++◌, decimal, length, take};
ghost use Rattle.report.specs.ReadyLine.{IsReady};
ghost use Rattle.report.specs.Word.{word_line, word_text};

use crate::word::{LONGEST_TEXT, Word};
use std::marker::Model;

/// Digits of a number, at most.
pub(crate) const LONGEST_NUMBER: usize = 20;

/// Bytes of a number and of what follows it where the reply is one word, at most.
pub(crate) const LONGEST_WORD_LINE: usize = 32;

/// Bytes that are stored at once where a line has no more.
const SHORT_LINE: usize = 16;

/// The line of an event of a number that replied a word, but that another digit may stand in the
/// place of the number's last one.
#[derive(Drop)]
pub(crate) struct ReadyLine {
    number: u64,
    word: Word,
    /// Where the last digit belongs in the line.
    place: usize,
    line: [u8; LONGEST_WORD_LINE],
}

impl Model for ReadyLine {
    ghost use Rattle.std.specs.Prelude.{◌^◌, ◌<◌};
    ghost use Rattle.report.specs.ReadyLine.{IsReady, Said};
    ghost use Rattle.report.specs.Word.{word_text};

    ghost Value = { Said };

    ghost view = { λ r. record { number = r.number; word = r.word } };

    ghost invariant = { λ r. (r.number < 2 ^ 64)
        × IsReady r.number r.place (word_text r.word) r.line };
}

impl ReadyLine {
    /// Such a line.
    #[inline]
    pub(crate) fn of(
        number: u64,
        word: Word,
        place: usize,
        line: [u8; LONGEST_WORD_LINE],
    ) -> ReadyLine
        requires ready { IsReady number place (word_text word) line }
        ensures { result ≡ record { number = number; word = word } }
    {
        ReadyLine {
            number,
            word,
            place,
            line,
        }
    }

    /// Writes the line into a block, of the number with these digits but for the last, which is
    /// given. Answers how many digits the number has.
    #[inline]
    pub(crate) fn write(&self, last_digit: u8, block: &mut [u8; LONGEST_WORD_LINE]) -> usize
        requires { last_digit < 10 }
        ensures digits { result ≡ length (decimal (self.now.number / 10 * 10 + last_digit)) }
        ensures line { take (result + length (word_text self.now.word)) block.new
            ≡ word_line self.now.word (self.now.number / 10 * 10 + last_digit) }
        ensures short { result ≤ LONGEST_NUMBER }
    {
        let digits = self.place + 1;
        store(&self.line, digits + self.word.length(), block);
        block[self.place] = b'0' + last_digit;
        digits
    }
}

/// Stores a line that ends here into a block: a short one by half of the bytes.
#[inline]
fn store(line: &[u8; LONGEST_WORD_LINE], end: usize, block: &mut [u8; LONGEST_WORD_LINE])
    ensures { take end block.new ≡ take end line.now }
{
    if end > SHORT_LINE {
        *block = *line;
        return;
    }
    if let Some(front) = line.first_chunk::<SHORT_LINE>() {
        if let Some(room) = block.first_chunk_mut::<SHORT_LINE>() {
            *room = *front;
        }
    }
}

/// The line of a number with these digits and of a word, at the beginning of a block.
pub(crate) fn line_of(digits: &[u8], word: Word) -> [u8; LONGEST_WORD_LINE]
    requires { length digits.now ≤ LONGEST_NUMBER }
    ensures { take (length digits.now + length (word_text word)) result
        ≡ digits.now ++ word_text word }
{
    let mut line = [0; LONGEST_WORD_LINE];
    let end = digits.len();
    line[..end].copy_from_slice(digits);
    put_word(&mut line, end, word);
    line
}

/// Puts a word into a line where its number ends.
#[inline]
pub(crate) fn put_word(line: &mut [u8; LONGEST_WORD_LINE], end: usize, word: Word)
    requires { end ≤ LONGEST_NUMBER }
    ensures { take (end + length (word_text word)) line.new ≡ take end line.old ++ word_text word }
{
    line[end..end + LONGEST_TEXT].copy_from_slice(&word.text());
}
