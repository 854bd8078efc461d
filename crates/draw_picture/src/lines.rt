//! Words that are cut into lines.

/// Lines that a row has, at most.
pub(crate) const MOST_LINES: usize = 6;

/// What is left of words that are cut into lines.
#[derive(Clone, Copy)]
pub(crate) struct Lines<'a> {
    rest: &'a [u8],
}

impl<'a> Lines<'a> {
    /// The whole of some words.
    pub(crate) fn of(words: &'a [u8]) -> Lines<'a> {
        Lines { rest: words }
    }

    /// Takes the next line, of so many bytes at most: up to a blank, where it has one.
    pub(crate) fn next(&mut self, width: usize) -> Option<&'a [u8]> {
        let rest = self.rest;
        if rest.is_empty() {
            return None;
        }
        if rest.len() <= width {
            self.rest = &[];
            return Some(rest);
        }
        let end = match last_blank(rest, width) {
            Some(end) => end,
            None => width.max(1),
        };
        let left = rest.get(end..).unwrap_or(&[]);
        self.rest = left.strip_prefix(b" ".as_slice()).unwrap_or(left);
        rest.get(..end)
    }
}

/// Where the last blank stands behind the first byte and within a width, if one does.
fn last_blank(bytes: &[u8], width: usize) -> Option<usize> {
    let mut found = None;
    for (place, byte) in bytes.iter().enumerate() {
        if place > 0 && place <= width && *byte == b' ' {
            found = Some(place);
        }
    }
    found
}

/// How many lines some words have, at least one.
pub(crate) fn count_lines(words: &[u8], width: usize) -> u32 {
    let mut lines = Lines::of(words);
    let mut count = 0u32;
    for _line in 0..MOST_LINES {
        if lines.next(width).is_some() {
            count = count.saturating_add(1);
        }
    }
    count.max(1)
}
