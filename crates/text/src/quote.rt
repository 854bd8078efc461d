//! Parts of a text, quoted.

ghost use Rattle.std.specs.Prelude.{◌≡◌, ◌-◌, max};

use crate::spot::{Spot, line_at, lines_round};
use std::alloc::AllocError;

/// Adds bytes of a text, where they are letters.
///
/// # Errors
///
/// When memory runs out.
pub fn add_bytes(prose: &mut String, bytes: &[u8]) -> Result<(), AllocError> {
    match str::from_utf8(bytes) {
        Ok(part) => prose.push_str(part),
        Err(_) => prose.push_str("(no letters)"),
    }
}

/// Adds a line of a text, without the end of the line.
///
/// # Errors
///
/// When memory runs out.
pub fn add_line(prose: &mut String, text: &[u8], spot: Spot) -> Result<(), AllocError> {
    match line_at(text, spot) {
        Some(line) => add_bytes(prose, line),
        None => prose.push_str("(no line)"),
    }
}

/// The number of the first line that is quoted round one: that of the second line before it, or 1.
fn first_number(spot: Spot) -> u64
    ensures { result ≡ max (spot.number - 2) 1 }
{
    spot.number.saturating_sub(2).max(1)
}

/// Adds a line and two lines round it, with their numbers; the line itself is marked.
///
/// # Errors
///
/// When memory runs out.
pub fn add_excerpt(prose: &mut String, text: &[u8], spot: Spot) -> Result<(), AllocError> {
    let mut left = lines_round(text, spot);
    for number in first_number(spot)..spot.number.saturating_add(3) {
        let Some(line) = left.next() else {
            return Ok(());
        };
        let sign = if number == spot.number { ">" } else { " " };
        write!(prose, "  {sign} {number}  ")?;
        add_bytes(prose, line)?;
        prose.push_str("\n")?;
    }
    Ok(())
}
