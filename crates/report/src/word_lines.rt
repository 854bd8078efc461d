//! Lines of events whose replies are one word, written into a buffer.

ghost use Rattle.std.specs.Prelude.{◌≡◌, ◌+◌, ◌*◌, ◌/◌, ◌%◌, ◌<◌, ◌≤◌, ◌++◌, decimal, length, take};
ghost use Rattle.report.specs.Word.{word_line, word_lines, word_text};

use crate::event_number::EventNumber;
use crate::ready_line::{LONGEST_NUMBER, LONGEST_WORD_LINE, ReadyLine};
use crate::word::Word;

/// Bytes of ten such lines, at most.
pub(crate) const LONGEST_TEN: usize = 320;

/// Writes a line into a block, with the last digit that is given. Answers how many digits its
/// number has.
#[inline]
fn write_block(block: &mut [u8], line: &ReadyLine, last_digit: u8) -> usize
    requires digit { last_digit < 10 }
    requires long { length block.old ≡ LONGEST_WORD_LINE }
    ensures len { length block.new ≡ LONGEST_WORD_LINE }
    ensures line { take (result + length (word_text line.now.word)) block.new
        ≡ word_line line.now.word (line.now.number / 10 * 10 + last_digit) }
    ensures digits { result ≡ length (decimal (line.now.number / 10 * 10 + last_digit)) }
    ensures short { result ≤ LONGEST_NUMBER }
{
    let Some(block) = block.as_mut_array() else {
        unreachable!()
    };
    line.write(last_digit, block)
}

/// Writes such a line into a buffer, at a place. Bytes behind the line may change.
#[inline]
pub(crate) fn write_line(buffer: &mut [u8], at: usize, line: &ReadyLine, last_digit: u8) -> usize
    requires digit { last_digit < 10 }
    requires room { at + LONGEST_WORD_LINE ≤ length buffer.old }
    ensures len { length buffer.new ≡ length buffer.old }
    ensures line { take (at + (result + length (word_text line.now.word))) buffer.new
        ≡ take at buffer.old
        ++ word_line line.now.word (line.now.number / 10 * 10 + last_digit) }
    ensures digits { take (at + result) buffer.new
        ≡ take at buffer.old ++ decimal (line.now.number / 10 * 10 + last_digit) }
    ensures short { result ≤ LONGEST_NUMBER }
{
    write_block(&mut buffer[at..at + LONGEST_WORD_LINE], line, last_digit)
}

/// Writes the lines of ten events that all replied this word into a buffer, from a place on: of the
/// number of a line that ends in 0, and of the nine after it. Answers where they end. Bytes behind
/// them may change.
pub(crate) fn write_ten(buffer: &mut [u8], start: usize, line: &ReadyLine, word: Word) -> usize
    requires ten { line.now.number % 10 ≡ 0 }
    requires word { line.now.word ≡ word }
    requires room { start + LONGEST_TEN ≤ length buffer.old }
    ensures len { length buffer.new ≡ length buffer.old }
    ensures lines { take result buffer.new
        ≡ take start buffer.old ++ word_lines word line.now.number 10 }
    ensures end { result ≤ start + LONGEST_TEN }
{
    let length = word.length();
    let mut at = start;
    for last_digit in 0..10 {
        at += write_line(buffer, at, line, last_digit) + length;
    }
    at
}

/// Writes the lines of so many events in a row that all replied this word into a buffer, from a
/// place on; their numbers differ in the last digit alone. Answers where they end. Bytes behind
/// them may change.
pub(crate) fn write_some(
    buffer: &mut [u8],
    start: usize,
    number: &mut EventNumber,
    word: Word,
    count: u8,
) -> usize
    requires digits { number.old % 10 + count ≤ 10 }
    requires room { start + LONGEST_TEN ≤ length buffer.old }
    ensures len { length buffer.new ≡ length buffer.old }
    ensures lines { take result buffer.new
        ≡ take start buffer.old ++ word_lines word number.old count }
    ensures end { result ≤ start + LONGEST_TEN }
    ensures number { number.new ≡ number.old }
{
    let line = number.line_with(word);
    let length = word.length();
    let first = number.last_digit();
    let mut at = start;
    for i in 0..count {
        at += write_line(buffer, at, &line, first + i) + length;
    }
    at
}
