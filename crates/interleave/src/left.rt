//! The lines of a schedule that are not read yet.

ghost use Rattle.std.specs.Prelude.{◌≡◌, ◌+◌, ◌≤◌, ◌∷◌, [], MatchOption, drop, length};
ghost use Rattle.interleave.specs.Usual.{TakesStep, TakesUsual};
ghost use Rattle.text.specs.Cut.{lines_of};

use crate::kept::Kept;
use crate::quick::{Operands, usual_line};
use std::marker::Model;
use text::cut::Lines;
use text::head::{after_word, digit};

/// The lines of a text that are not read yet, in order, without their LF.
#[derive(Drop)]
pub(crate) struct Left<'a> {
    rest: &'a [u8],
}

impl<'a> Model for Left<'a> {
    ghost use Rattle.std.specs.Prelude.{List, ℕ};
    ghost use Rattle.text.specs.Cut.{lines_of};

    ghost Value = { List (List ℕ) };

    ghost view = { λ left. lines_of left.rest.now };
}

impl<'a> Left<'a> {
    /// All lines of a text.
    pub(crate) fn of(text: &'a [u8]) -> Left<'a>
        ensures lines { result ≡ lines_of text.now }
        ensures few { length result ≤ length text.now }
    {
        let _lines = Lines::of(text);
        Left { rest: text }
    }

    /// Takes the next line, if there is one.
    pub(crate) fn next(&mut self) -> Option<&'a [u8]>
        ensures { MatchOption result ((self.old ≡ []) × (self.new ≡ []))
            (λ line. self.old ≡ line.now ∷ self.new) }
    {
        let text = self.rest;
        let line = Lines::of(text).next()?;
        self.rest = behind(text, line);
        Some(line)
    }

    /// The text of these lines.
    pub(crate) fn rest(&self) -> &'a [u8]
        ensures { lines_of result.now ≡ self.now }
    {
        self.rest
    }

    /// Takes the next line, if it has the usual form and an LF, and stands for at most so many
    /// events. It isn't cut off first either.
    #[inline]
    pub(crate) fn next_usual(&mut self, most: usize) -> Option<Kept>
        ensures { MatchOption result (self.new ≡ self.old)
            (λ events. (events.count ≤ most) × TakesUsual self.old events self.new) }
    {
        let mut operands = Operands { rest: self.rest };
        let kept = usual_line(&mut operands)?;
        if kept.count() > most {
            return None;
        }
        self.rest = operands.rest;
        Some(kept)
    }

    /// Takes the next line, if it is that of one step of a thread with a number of one or two
    /// digits, in the usual form and with an LF. Most lines of a long schedule are, so they are
    /// read by their bytes alone, and no line is cut off first.
    #[inline]
    pub(crate) fn next_step(&mut self) -> Option<u8>
        ensures { MatchOption result (self.new ≡ self.old)
            (λ thread. TakesStep self.old thread self.new) }
    {
        let (first, behind_first) = after_word(self.rest, b"step ")?.split_first()?;
        let (second, behind_second) = behind_first.split_first()?;
        if *second == b'\n' {
            let thread = digit(*first)?;
            self.rest = behind_second;
            return Some(thread);
        }
        let (third, behind_third) = behind_second.split_first()?;
        if *third != b'\n' {
            return None;
        }
        let thread = digit(*first)? * 10 + digit(*second)?;
        self.rest = behind_third;
        Some(thread)
    }
}

/// What stands behind the first line of a text and its LF.
fn behind<'a>(text: &'a [u8], line: &[u8]) -> &'a [u8]
    ensures { result.now ≡ drop (length line.now + 1) text.now }
{
    match text.get(line.len() + 1..) {
        Some(rest) => rest,
        None => &[],
    }
}
