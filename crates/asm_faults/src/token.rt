//! The tokens of a line.

use std::alloc::{AllocError, Global};
use text::class::label_name;
use text::piece::Piece;
use text::token::Tokens;

/// The tokens of a line, a label before them apart.
#[derive(Drop)]
pub(crate) struct Parts<'a> {
    pub(crate) label: Option<Piece<'a>>,
    pub(crate) word: Option<Piece<'a>>,
    pub(crate) operands: Vec<Piece<'a>>,
}

impl<'a> Parts<'a> {
    /// The tokens of this line.
    pub(crate) fn of(alloc: Global, line: &'a [u8]) -> Result<Parts<'a>, AllocError> {
        let mut tokens = Tokens::of(line);
        let mut parts = Parts {
            label: None,
            word: None,
            operands: Vec::new(alloc),
        };
        let Some(first) = tokens.next() else {
            return Ok(parts);
        };
        match label_name(first) {
            Some(name) => {
                parts.label = Some(Piece::of(name));
                parts.word = piece_of(tokens.next());
            }
            None => parts.word = Some(Piece::of(first)),
        }
        while let Some(token) = tokens.next() {
            parts.operands.push(Piece::of(token))?;
        }
        Ok(parts)
    }

    /// The word, without bytes where there is none.
    pub(crate) fn word_bytes(&self) -> &'a [u8] {
        match &self.word {
            Some(word) => word.bytes(),
            None => &[],
        }
    }

    /// The operand of a place, from 0.
    pub(crate) fn operand(&self, place: usize) -> Option<&'a [u8]> {
        Some(self.operands.get(place)?.bytes())
    }
}

fn piece_of<'a>(token: Option<&'a [u8]>) -> Option<Piece<'a>> {
    Some(Piece::of(token?))
}
