//! What walks.

ghost use Rattle.std.specs.Prelude.{◌≡◌, ◌++◌, ◌∷◌, [], Bool, IfOk, IsTrue, List, ℕ, not, true};

use std::alloc::{AllocError, Global};

/// What stands at a place, behind the moves that have led there. Which moves these may be, what
/// they lead to, and which places are one, goes by the walker that all of them began with.
pub trait Walker: Sized {
    /// Whether a move may be made behind others, and whether it fails where it may be.
    ghost may: { Self → List ℕ → ℕ → Bool };

    ghost fails: { Self → List ℕ → ℕ → Bool };

    /// Moves lead to one place.
    ghost one: { Self → List ℕ → List ℕ → Type 0 };

    /// Another one stands behind these moves.
    ghost stands: { Self → List ℕ → Self → Type 0 };

    /// Another one, behind these moves.
    ///
    /// # Errors
    ///
    /// When memory runs out.
    fn behind(&self, alloc: Global, moves: &[u8]) -> Result<Self, AllocError>
        ensures { IfOk result (stands self.now moves.now) };

    /// Whether it may make a move.
    fn may(&self, number: u8) -> bool
        ensures { (home : Self) (path : List ℕ) → stands home path self.now
            → result ≡ may home path number };

    /// Makes a move, and answers whether that goes on.
    ///
    /// # Errors
    ///
    /// When memory runs out.
    fn go(&mut self, number: u8) -> Result<bool, AllocError>
        ensures fails { IfOk result (λ well. (home : Self) (path : List ℕ)
            → stands home path self.old → may home path number ≡ true
            → well ≡ not (fails home path number)) }
        ensures stands { IfOk result (λ well. (home : Self) (path : List ℕ)
            → stands home path self.old → may home path number ≡ true → well ≡ true
            → stands home (path ++ number ∷ []) self.new) };

    /// Whether it stands at the same place as another one.
    fn is_one(&self, other: &Self) -> bool
        ensures { IsTrue result → (home : Self) (path others : List ℕ)
            → stands home path self.now → stands home others other.now
            → one home path others };

    /// Adds bytes that are the same for all that stand at one place.
    ///
    /// # Errors
    ///
    /// When memory runs out.
    fn add_key(&self, key: &mut Vec<u8>) -> Result<(), AllocError>;
}
