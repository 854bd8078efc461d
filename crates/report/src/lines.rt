//! Lines of output that gather before they are written.

ghost use Rattle.std.specs.Prelude.{◌≡◌, ◌+◌, ◌-◌, ◌%◌, ◌^◌, ◌<◌, ◌≤◌, ◌↔◌, ◌++◌, [], IfOk, IsTrue};
ghost use Rattle.std.specs.Prelude.{decimal, length, take};
ghost use Rattle.report.specs.Lines.{HasRoom};
ghost use Rattle.report.specs.Reply.{reply_head};
ghost use Rattle.report.specs.Word.{word_head, word_line, word_lines};

use crate::event_number::EventNumber;
use crate::ready_line::{LONGEST_NUMBER, LONGEST_WORD_LINE};
use crate::word::Word;
use crate::word_lines::{LONGEST_TEN, write_line, write_some, write_ten};
use itoa::Buffer;
use model::event::Reply;
use std::alloc::{AllocError, Global};
use std::marker::Model;

/// Bytes that gather before they are written.
pub const ROOM: usize = 16_384;

/// Bytes of a line, at most.
pub const LONGEST_LINE: usize = 128;

/// Lines that gather before they are written. All their memory is taken once: a line that there is
/// room for needs none.
#[derive(Drop)]
pub struct Lines {
    /// The bytes of the lines, and room.
    buffer: Vec<u8>,
    /// How many bytes of the buffer the lines have.
    used: usize,
}

impl Model for Lines {
    ghost use Rattle.std.specs.Prelude.{◌≡◌, ◌≤◌, List, ℕ, length, take};
    ghost use Rattle.report.specs.declared.lines.TheConstants.{ROOM};

    ghost Value = { List ℕ };

    ghost view = { λ lines. take lines.used lines.buffer.items };

    ghost invariant = { λ lines.
        (length lines.buffer.items ≡ ROOM) × (lines.used ≤ ROOM) };
}

impl Lines {
    /// No lines.
    ///
    /// # Errors
    ///
    /// When memory runs out; no other call needs any.
    pub fn new(alloc: Global) -> Result<Lines, AllocError>
        ensures { IfOk result (λ lines. lines ≡ []) }
    {
        Ok(Lines {
            buffer: zeros(alloc, ROOM)?,
            used: 0,
        })
    }

    /// Whether there is room for one line more.
    #[inline]
    pub fn has_room(&self) -> bool
        ensures { IsTrue result ↔ HasRoom self.now }
    {
        self.used + LONGEST_LINE <= ROOM
    }

    /// The bytes of the lines.
    #[inline]
    pub fn bytes(&self) -> &[u8]
        ensures { result.now ≡ self.now }
    {
        &self.buffer[..self.used]
    }

    /// Forgets the lines.
    #[inline]
    pub fn clear(&mut self)
        ensures { self.new ≡ [] }
    {
        self.used = 0;
    }

    /// For how many bytes there is room.
    #[inline]
    pub fn room(&self) -> usize
        ensures { result + length self.now ≡ ROOM }
    {
        ROOM - self.used
    }

    /// Adds a part of a line.
    #[inline]
    pub fn text(&mut self, part: &[u8])
        requires { length self.old + length part.now ≤ ROOM }
        ensures added { self.new ≡ self.old ++ part.now }
        ensures grown { length self.new ≡ length self.old + length part.now }
    {
        let end = self.used + part.len();
        self.buffer[self.used..end].copy_from_slice(part);
        self.used = end;
    }

    /// Adds the line of the event of a number that replied a word.
    #[inline]
    pub(crate) fn one_word(&mut self, number: &mut EventNumber, word: Word)
        requires { length self.old + LONGEST_WORD_LINE ≤ ROOM }
        ensures line { self.new ≡ self.old ++ word_line word number.old }
        ensures number { number.new ≡ number.old }
    {
        let line = number.line_with(word);
        let digits = write_line(&mut self.buffer, self.used, &line, number.last_digit());
        self.used += digits + word.length();
    }

    /// Adds the line of the event of a number that replied a word, without its end.
    #[inline]
    pub fn head(&mut self, number: &mut EventNumber, word: Word)
        requires { HasRoom self.old }
        ensures head { self.new ≡ self.old ++ word_head word number.old }
        ensures number { number.new ≡ number.old }
    {
        self.one_word(number, word);
        self.used -= 1;
    }

    /// How many bytes the line of an event of a number has before its end. Lines that gathered are
    /// forgotten.
    pub fn head_length(&mut self, number: &mut EventNumber, reply: &Reply) -> usize
        ensures length { result ≡ length (reply_head number.old reply.now) }
        ensures number { number.new ≡ number.old }
    {
        self.clear();
        self.reply(number, reply);
        self.used - 1
    }

    /// Adds the lines of so many events that all replied this word, from a number on, as long as
    /// there is room for one line more. Answers how many, and goes on to the number behind them.
    pub fn words(&mut self, number: &mut EventNumber, word: Word, count: u64) -> u64
        requires room { HasRoom self.old }
        requires some { 0 < count }
        requires fits { number.old + count < 2 ^ 64 }
        ensures some { 0 < result }
        ensures most { result ≤ count }
        ensures full { result < count → ROOM < length self.new + LONGEST_LINE }
        ensures lines { self.new ≡ self.old ++ word_lines word number.old result }
        ensures number { number.new ≡ number.old + result }
        ensures left { word_lines word number.old count
            ≡ word_lines word number.old result ++ word_lines word number.new (count - result) }
    {
        let mut told = self.some_words(number, word, count);
        while told < count && self.has_room() {
            told += self.some_words(number, word, count - told);
        }
        told
    }

    /// Adds the lines of some such events, at least one and at most so many: of numbers that differ
    /// in the last digit alone. Answers how many, and goes on to the number behind them.
    fn some_words(&mut self, number: &mut EventNumber, word: Word, most: u64) -> u64
        requires room { HasRoom self.old }
        requires some { 0 < most }
        requires fits { number.old + most < 2 ^ 64 }
        ensures some { 0 < result }
        ensures most { result ≤ most }
        ensures lines { self.new ≡ self.old ++ word_lines word number.old result }
        ensures number { number.new ≡ number.old + result }
    {
        if most == 1 || self.used + LONGEST_TEN > ROOM {
            self.one_word(number, word);
            number.advance();
            return 1;
        }
        let left = 10 - number.last_digit();
        if most < u64::from(left) {
            self.words_of_ten(number, word, most as u8);
            return most;
        }
        if left == 10 {
            self.ten_words(number, word);
            return 10;
        }
        self.words_of_ten(number, word, left);
        u64::from(left)
    }

    /// Adds the lines of some such events, whose numbers differ in the last digit alone, and goes
    /// on to the number behind them.
    fn words_of_ten(&mut self, number: &mut EventNumber, word: Word, count: u8)
        requires some { 1 ≤ count }
        requires digits { number.old % 10 + count ≤ 10 }
        requires fits { number.old + count < 2 ^ 64 }
        requires room { length self.old + LONGEST_TEN ≤ ROOM }
        ensures lines { self.new ≡ self.old ++ word_lines word number.old count }
        ensures number { number.new ≡ number.old + count }
    {
        self.used = write_some(&mut self.buffer, self.used, number, word, count);
        number.advance_by(count);
    }

    /// Adds the lines of ten such events, of a number that ends in 0 and of the nine after it, and
    /// goes on to the number behind them.
    fn ten_words(&mut self, number: &mut EventNumber, word: Word)
        requires ten { number.old % 10 ≡ 0 }
        requires fits { number.old + 10 < 2 ^ 64 }
        requires room { length self.old + LONGEST_TEN ≤ ROOM }
        ensures lines { self.new ≡ self.old ++ word_lines word number.old 10 }
        ensures number { number.new ≡ number.old + 10 }
    {
        // The line is changed before it is needed again: one that was just changed is slow to load.
        let line = number.line_with(word);
        number.advance_by_ten();
        self.used = write_ten(&mut self.buffer, self.used, &line, word);
    }

    /// Adds the number of an event.
    #[inline]
    pub(crate) fn event_number(&mut self, number: &EventNumber)
        requires { length self.old + LONGEST_WORD_LINE ≤ ROOM }
        ensures added { self.new ≡ self.old ++ decimal number.now }
        ensures grown { length self.new ≤ length self.old + LONGEST_NUMBER }
    {
        let line = number.line();
        let digits = write_line(&mut self.buffer, self.used, &line, number.last_digit());
        self.used += digits;
    }

    /// Adds a decimal number.
    pub(crate) fn number(&mut self, number: u64)
        requires { length self.old + LONGEST_NUMBER ≤ ROOM }
        ensures added { self.new ≡ self.old ++ decimal number }
        ensures grown { length self.new ≤ length self.old + LONGEST_NUMBER }
    {
        let mut digits = Buffer::new();
        self.text(digits.format(number).as_bytes());
    }
}

fn zeros(alloc: Global, count: usize) -> Result<Vec<u8>, AllocError>
    ensures { IfOk result (λ bytes. length bytes.items ≡ count) }
{
    vec![in alloc; 0; count]
}
