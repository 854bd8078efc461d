//! The blanks between the parts of a line.

/// Where the columns, the place and the words begin, if what stands before them is no longer.
const COLUMNS: usize = 26;

const PLACE: usize = 44;

/// As many blanks as ever stand in a row.
const BLANKS: &str = "                                            ";

/// How many blanks stand behind a head of so many bytes, its number and the reply.
pub fn blanks_behind(head: usize) -> usize {
    blanks(head, COLUMNS).len()
}

/// So many blanks, at most 44.
pub fn blank(count: usize) -> &'static str {
    BLANKS.get(..count).unwrap_or(BLANKS)
}

/// The blanks behind a place of so many bytes, up to where it is told what changed.
pub fn blanks_before_change(place: usize) -> &'static str {
    blanks(place, PLACE)
}

/// The blanks behind so many bytes, up to a width, and one at least.
fn blanks(has: usize, width: usize) -> &'static str {
    let blanks = width.saturating_sub(has).max(1);
    blank(blanks)
}
