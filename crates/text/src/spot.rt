//! Where a line stands in its text.

ghost use Rattle.std.specs.Prelude.{◌≡◌, ◌-◌, List, ℕ, drop, option_map, slice_get};
ghost use Rattle.text.specs.Cut.{lines_of};
ghost use Rattle.text.specs.Places.{IsIn};

use crate::cut::Lines;

/// Where a line stands in its text.
#[derive(Clone, Copy)]
pub struct Spot {
    /// Its number.
    pub number: u64,
    /// How many bytes stand before it.
    pub start: usize,
    /// How many bytes stand before the line before it.
    pub before: usize,
    /// How many bytes stand before the line before that one.
    pub earlier: usize,
}

/// The line of a text that stands there, if there is one.
pub fn line_at(text: &[u8], spot: Spot) -> Option<&[u8]>
    ensures { (skipped : ℕ) → IsIn skipped text.now spot
        → option_map (λ line. line.now) result
        ≡ slice_get (lines_of text.now) (spot.number - skipped - 1) }
{
    let rest = text.get(spot.start..)?;
    Lines::of(rest).next()
}

/// The lines of a text from the second before one on, or from the first.
pub(crate) fn lines_round(text: &[u8], spot: Spot) -> Lines<'_>
    ensures { (skipped : ℕ) → IsIn skipped text.now spot
        → result ≡ drop (spot.number - skipped - 3) (lines_of text.now) }
{
    match text.get(spot.earlier..) {
        Some(rest) => Lines::of(rest),
        None => Lines::of(&[]),
    }
}
