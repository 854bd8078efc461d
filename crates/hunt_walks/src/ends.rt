//! Where walks come to their ends.

ghost use Rattle.std.specs.Prelude.{◌≡◌, IfOk, List, ℕ};
ghost use Rattle.hunt_walks.specs.Ends.{IsAtEnd, is_rest};

use crate::walker::Walker;
use std::alloc::{AllocError, Global};

/// Whether none of so many moves may be made from where one stands.
fn is_rest<W: Walker>(place: &W, moves: u8) -> bool
    ensures { (home : W) (path : List ℕ) → W.stands home path place.now
        → result ≡ is_rest (W.may home) path moves }
{
    for number in 0..moves {
        let may = place.may(number);
        if may {
            return false;
        }
    }
    true
}

/// Who stands behind a walk, where none of so many moves may be made there.
///
/// # Errors
///
/// When memory runs out.
pub fn at_end<W: Walker + Drop>(
    alloc: Global,
    home: &W,
    path: &[u8],
    moves: u8,
) -> Result<Option<W>, AllocError>
    ensures { IfOk result
        (IsAtEnd (W.may home.now) (W.stands home.now) moves path.now) }
{
    let place = home.behind(alloc, path)?;
    let rests = is_rest(&place, moves);
    if rests {
        return Ok(Some(place));
    }
    Ok(None)
}
