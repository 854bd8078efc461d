//! A part of a text.

ghost use Rattle.std.specs.Prelude.{◌≡◌, List, ℕ, bytes_eq};
ghost use Rattle.std.proofs.Common.{rules};
ghost use Rattle.std.specs.Hash as fed;
ghost use Rattle.std.specs.Cmp.Lexicographic.{nat_list_eq_equiv};
ghost use Rattle.std.specs.Cmp.{partial_equiv_from_equiv};

use std::hash::{Hash, Hasher};
use std::marker::Model;

/// A part of a text, lent. Two pieces with the same bytes are equal, wherever they stand.
#[derive(Drop)]
pub struct Piece<'a> {
    piece_bytes: &'a [u8],
}

impl<'a> Model for Piece<'a> {
    ghost Value = { List ℕ };

    ghost view = { λ a. a.piece_bytes.now };
}

impl<'a> Piece<'a> {
    /// These bytes as a piece.
    pub fn of(bytes: &'a [u8]) -> Piece<'a>
        ensures { result ≡ bytes.now }
    {
        Piece { piece_bytes: bytes }
    }

    /// The bytes, lent for as long as the text is.
    pub fn bytes(&self) -> &'a [u8]
        ensures { result.now ≡ self.now }
    {
        self.piece_bytes
    }

    /// The same bytes as another piece.
    pub fn again(&self) -> Piece<'a>
        ensures { result ≡ self.now }
    {
        Piece::of(self.bytes())
    }
}

impl PartialEq for Piece<'_> {
    ghost eq = { bytes_eq };

    ghost laws = { partial_equiv_from_equiv nat_list_eq_equiv };

    fn eq(&self, other: &Self) -> bool {
        self.piece_bytes == other.piece_bytes
    }
}

impl Eq for Piece<'_> {
    ghost laws = { nat_list_eq_equiv };
}

impl Hash for Piece<'_> {
    ghost hash_input = { fed.slice fed.u8 };

    ghost respects_eq = { Prim.search rules };

    fn hash<H: Hasher>(&self, state: &mut H) {
        self.piece_bytes.hash(state);
    }
}
