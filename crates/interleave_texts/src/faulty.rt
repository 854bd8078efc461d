//! A faulty line in its schedule.

use std::alloc::{AllocError, Global};
use text::piece::Piece;
use text::token::Tokens;
use text::{PlacedLines, Spot, line_at};
use text_faults::add_line;
use words::Words;

/// A faulty line in its schedule.
#[derive(Drop)]
pub struct FaultyLine<'a> {
    pub text: &'a [u8],
    /// Where it stands; behind the last line where the text ends too early.
    pub spot: Spot,
    /// Whether a line before it has a token, and says how many threads there are.
    pub opened: bool,
    pub tokens: Vec<Piece<'a>>,
}

impl<'a> FaultyLine<'a> {
    /// The line of a number in a text.
    pub fn of(alloc: Global, text: &'a [u8], number: u64) -> Result<FaultyLine<'a>, AllocError> {
        let mut opened = false;
        let mut left = PlacedLines::of(text);
        let mut spot = left.end();
        while let Some(raw) = left.next() {
            if left.spot().number >= number {
                break;
            }
            opened = opened || Tokens::of(raw).next().is_some();
            spot = left.end();
        }
        let tokens = tokens_of(alloc, line_at(text, spot).unwrap_or(&[]))?;
        Ok(FaultyLine {
            text,
            spot,
            opened,
            tokens,
        })
    }

    /// The token of a place, from 0, the first word at 0.
    pub fn token(&self, place: usize) -> Option<&'a [u8]> {
        Some(self.tokens.get(place)?.bytes())
    }

    /// The first word, without bytes where there is none.
    pub fn word(&self) -> &'a [u8] {
        self.token(0).unwrap_or(&[])
    }

    /// Adds where it stands, and the lines round it.
    pub fn add_place(&self, words: &mut Words) {
        words.add("\nin ");
        add_line(words, self.text, self.spot)
    }
}

/// The tokens of a line.
pub fn tokens_of<'a>(alloc: Global, line: &'a [u8]) -> Result<Vec<Piece<'a>>, AllocError> {
    let mut tokens = Tokens::of(line);
    let mut all = Vec::new(alloc);
    while let Some(token) = tokens.next() {
        all.push(Piece::of(token))?;
    }
    Ok(all)
}
