//! Rows that repeat the rows before them.

use crate::row::{Repeat, Row};

/// Rows of a block that is repeated, at most.
const LONGEST: usize = 8;

/// The last rows, which repeat the block of rows before them.
#[derive(Clone, Copy)]
pub(crate) struct Tail {
    /// The first of them.
    pub(crate) start: usize,
    /// How many rows the block has, and how many times they repeat it.
    pub(crate) repeat: Repeat,
}

/// The last rows, if they repeat a block: for the second time, or behind a row that says how many
/// times it was repeated before. The shortest block counts.
pub(crate) fn repeated(rows: &[Row]) -> Option<Tail> {
    for length in 1..LONGEST + 1 {
        let tail = match once_more(rows, length) {
            Some(tail) => Some(tail),
            None => twice(rows, length),
        };
        if tail.is_some() {
            return tail;
        }
    }
    None
}

/// The last rows, if they are a block of a length once more that was folded before them.
fn once_more(rows: &[Row], length: usize) -> Option<Tail> {
    let start = rows.len().checked_sub(length)?;
    let before = start.checked_sub(1)?;
    let block = before.checked_sub(length)?;
    match rows.get(before)?.repeat {
        Some(repeat) if repeat.rows == length && are_same(rows, block, start, length) => {
            Some(Tail {
                start,
                repeat: Repeat {
                    rows: length,
                    times: 1,
                },
            })
        }
        _ => None,
    }
}

/// The last rows, if they are twice the block of a length before them.
fn twice(rows: &[Row], length: usize) -> Option<Tail> {
    let last = rows.len().checked_sub(length)?;
    let start = last.checked_sub(length)?;
    let block = start.checked_sub(length)?;
    if !are_same(rows, start, last, length) || !are_same(rows, block, start, length) {
        return None;
    }
    Some(Tail {
        start,
        repeat: Repeat {
            rows: length,
            times: 2,
        },
    })
}

/// Whether so many rows from one on say the same, word for word, as those from another one on.
fn are_same(rows: &[Row], one: usize, other: usize, length: usize) -> bool {
    (0..length).all(|place| {
        is_same(
            rows.get(one.saturating_add(place)),
            rows.get(other.saturating_add(place)),
        )
    })
}

/// Whether two rows say the same.
fn is_same(one: Option<&Row>, other: Option<&Row>) -> bool {
    match (one, other) {
        (Some(one), Some(other)) => one.says_as(other),
        _ => false,
    }
}
