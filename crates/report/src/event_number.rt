//! The numbers of a run's events, counted up as they are written.

ghost use Rattle.std.specs.Prelude.{◌≡◌, ◌+◌, ◌%◌, ◌^◌, ◌<◌, ◌≤◌, ℕ, decimal, length};

use crate::ready_line::{LONGEST_WORD_LINE, ReadyLine, line_of, put_word};
use crate::word::Word;
use itoa::Buffer;
use std::marker::Model;

/// The number of an event, with the line of an event of that number that replied a word: the common
/// line of a run. Its last digit alone changes from most numbers to the next, and its word seldom.
#[derive(Drop)]
pub struct EventNumber {
    number: u64,
    /// The last digit of the number.
    last_digit: u8,
    /// Where that digit belongs in the line.
    place: usize,
    /// The word of the line.
    word: Word,
    /// The line, but that another digit may stand at that place.
    line: [u8; LONGEST_WORD_LINE],
}

impl Model for EventNumber {
    ghost use Rattle.std.specs.Prelude.{◌≡◌, ◌%◌, ◌^◌, ◌<◌, ℕ};
    ghost use Rattle.report.specs.ReadyLine.{IsReady};
    ghost use Rattle.report.specs.Word.{word_text};

    ghost Value = { ℕ };

    ghost view = { λ n. n.number };

    ghost invariant = { λ n. (n.number < 2 ^ 64) × (n.last_digit ≡ n.number % 10)
        × IsReady n.number n.place (word_text n.word) n.line };
}

impl EventNumber {
    /// The number of the first event, 0.
    pub fn first() -> EventNumber
        ensures { result ≡ 0 }
    {
        EventNumber::of(0, Word::Stepped)
    }

    fn of(number: u64, word: Word) -> EventNumber
        ensures { result ≡ number }
    {
        let mut buffer = Buffer::new();
        let digits = buffer.format(number).as_bytes();
        EventNumber {
            number,
            last_digit: (number % 10) as u8,
            place: digits.len() - 1,
            word,
            line: line_of(digits, word),
        }
    }

    /// This number.
    #[inline]
    pub fn value(&self) -> u64
        ensures { result ≡ self.now }
    {
        self.number
    }

    /// How many digits it has.
    #[inline]
    pub fn digits(&self) -> usize
        ensures { result ≡ length (decimal self.now) }
    {
        self.place + 1
    }

    /// The last digit of this number.
    #[inline]
    pub(crate) fn last_digit(&self) -> u8
        ensures { result ≡ self.now % 10 }
    {
        self.last_digit
    }

    /// The line of this number and of the word that was written last.
    #[inline]
    pub(crate) fn line(&self) -> ReadyLine
        ensures { result.number ≡ self.now }
    {
        ReadyLine::of(self.number, self.word, self.place, self.line)
    }

    /// The line of this number and of a word.
    #[inline]
    pub(crate) fn line_with(&mut self, word: Word) -> ReadyLine
        ensures same { self.new ≡ self.old }
        ensures line { result ≡ record { number = self.old; word = word } }
    {
        if !self.word.is(word) {
            put_word(&mut self.line, self.place + 1, word);
            self.word = word;
        }
        ReadyLine::of(self.number, word, self.place, self.line)
    }

    /// Goes on to the next number.
    #[inline]
    pub fn advance(&mut self)
        requires { self.old + 1 < 2 ^ 64 }
        ensures { self.new ≡ self.old + 1 }
    {
        if self.last_digit < 9 {
            self.number += 1;
            self.last_digit += 1;
        } else {
            self.advance_to_ten();
        }
    }

    /// Goes on by so many.
    #[inline]
    pub fn advance_many(&mut self, count: u64)
        requires { self.old + count < 2 ^ 64 }
        ensures { self.new ≡ self.old + count }
    {
        match count {
            0 => {}
            1 => self.advance(),
            _ => self.renew(self.number + count),
        }
    }

    /// Becomes this number.
    #[inline]
    pub fn go_to(&mut self, number: u64)
        ensures { self.new ≡ number }
    {
        if self.number != number {
            self.renew(number);
        }
    }

    /// Goes on by ten, from a number that ends in 0.
    #[inline]
    pub(crate) fn advance_by_ten(&mut self)
        requires ten { self.old % 10 ≡ 0 }
        requires fits { self.old + 10 < 2 ^ 64 }
        ensures { self.new ≡ self.old + 10 }
    {
        self.number += 9;
        self.last_digit = 9;
        self.advance_to_ten();
    }

    /// Goes on by so many, at most to the next number that ends in 0.
    #[inline]
    pub(crate) fn advance_by(&mut self, count: u8)
        requires some { 1 ≤ count }
        requires digits { self.old % 10 + count ≤ 10 }
        requires fits { self.old + count < 2 ^ 64 }
        ensures { self.new ≡ self.old + count }
    {
        let digit = self.last_digit + count;
        if digit < 10 {
            self.number += u64::from(count);
            self.last_digit = digit;
        } else {
            self.number += u64::from(count - 1);
            self.last_digit = 9;
            self.advance_to_ten();
        }
    }

    /// Goes on from a number that ends in 9.
    #[inline]
    fn advance_to_ten(&mut self)
        requires last { self.old % 10 ≡ 9 }
        requires fits { self.old + 1 < 2 ^ 64 }
        ensures { self.new ≡ self.old + 1 }
    {
        let number = self.number + 1;
        let place = self.place;
        if place > 0 && self.line[place - 1] < b'9' {
            self.line[place - 1] += 1;
            self.number = number;
            self.last_digit = 0;
        } else {
            self.renew(number);
        }
    }

    /// Becomes a number whose digits are others.
    #[inline(never)]
    fn renew(&mut self, number: u64)
        ensures { self.new ≡ number }
    {
        *self = EventNumber::of(number, self.word);
    }
}
