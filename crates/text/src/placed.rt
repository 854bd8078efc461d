//! A text that is read line by line, with the places of its lines.

ghost use Rattle.std.specs.Prelude.{◌≡◌, ◌+◌, ◌<◌, ◌^◌, ◌∷◌, [], MatchOption};
ghost use Rattle.text.specs.Cut.{lines_of};
ghost use Rattle.text.specs.Places.{IsIn};

use crate::cut::Lines;
use crate::spot::Spot;
use std::marker::Model;

/// A text that is read line by line. Contracts see the text, how many lines stand before it, how
/// many of its own were taken, and those that are left.
#[derive(Drop)]
pub struct PlacedLines<'a> {
    text: &'a [u8],
    skipped: u64,
    taken: u64,
    left: Lines<'a>,
    /// How many bytes stand before the lines that are left.
    next: usize,
    /// How many stand before the line that was taken last, and before those before it.
    start: usize,
    before: usize,
    earlier: usize,
}

impl<'a> Model for PlacedLines<'a> {
    ghost use Rattle.std.specs.Prelude.{◌≡◌, ◌+◌, ◌-◌, ◌<◌, ◌≤◌, ◌^◌, drop, length};
    ghost use Rattle.text.specs.Cut.{lines_of};
    ghost use Rattle.text.specs.Places.{Reading, bytes_before};

    ghost Value = { Reading };

    ghost view = { λ p. record {
      text = p.text.now;
      skipped = p.skipped;
      taken = p.taken;
      left = p.left;
    } };

    ghost invariant = { λ p. (p.left ≡ drop p.taken (lines_of p.text.now))
        × (p.next ≡ bytes_before p.text.now p.taken)
        × (p.start ≡ bytes_before p.text.now (p.taken - 1))
        × (p.before ≡ bytes_before p.text.now (p.taken - 2))
        × (p.earlier ≡ bytes_before p.text.now (p.taken - 3))
        × (p.taken + length p.left ≡ length (lines_of p.text.now))
        × (p.skipped + p.taken + length p.left + 1 < 2 ^ 64)
        × (length p.text.now + 1 < 2 ^ 64) };
}

impl<'a> PlacedLines<'a> {
    /// A whole text, whose first line has the number 1.
    pub fn of(text: &'a [u8]) -> PlacedLines<'a>
        ensures { result ≡ record {
          text = text.now;
          skipped = 0;
          taken = 0;
          left = lines_of text.now;
        } }
    {
        PlacedLines {
            text,
            skipped: 0,
            taken: 0,
            left: Lines::of(text),
            next: 0,
            start: 0,
            before: 0,
            earlier: 0,
        }
    }

    /// A text before which so many lines stand.
    pub fn behind(text: &'a [u8], skipped: u64) -> PlacedLines<'a>
        requires { skipped < 2 ^ 63 }
        ensures { result ≡ record {
          text = text.now;
          skipped = skipped;
          taken = 0;
          left = lines_of text.now;
        } }
    {
        PlacedLines {
            text,
            skipped,
            taken: 0,
            left: Lines::of(text),
            next: 0,
            start: 0,
            before: 0,
            earlier: 0,
        }
    }

    /// Takes the next line, if there is one.
    pub fn next(&mut self) -> Option<&'a [u8]>
        ensures { MatchOption result ((self.old.left ≡ []) × (self.new ≡ self.old))
            (λ line. (self.old.left ≡ line.now ∷ self.new.left)
            × (self.new.taken ≡ self.old.taken + 1)
            × (self.new.text ≡ self.old.text)
            × (self.new.skipped ≡ self.old.skipped)) }
    {
        let line = self.left.next()?;
        self.earlier = self.before;
        self.before = self.start;
        self.start = self.next;
        self.next += line.len() + 1;
        self.taken += 1;
        Some(line)
    }

    /// Where the line stands that was taken last.
    pub fn spot(&self) -> Spot
        ensures number { result.number ≡ self.now.skipped + self.now.taken }
        ensures there { IsIn self.now.skipped self.now.text result }
    {
        Spot {
            number: self.skipped + self.taken,
            start: self.start,
            before: self.before,
            earlier: self.earlier,
        }
    }

    /// Where the next line stands, or would stand.
    pub fn end(&self) -> Spot
        ensures number { result.number ≡ self.now.skipped + self.now.taken + 1 }
        ensures there { IsIn self.now.skipped self.now.text result }
    {
        Spot {
            number: self.skipped + self.taken + 1,
            start: self.next,
            before: self.start,
            earlier: self.before,
        }
    }
}
