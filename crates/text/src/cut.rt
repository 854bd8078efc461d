//! A text cut into lines.

ghost use Rattle.std.specs.Prelude.{◌≡◌, ◌≤◌, ◌∷◌, [], List, ℕ, MatchOption, length};
ghost use Rattle.text.specs.Cut.{closed, is_clean, is_written, lines_of};

use memchr::memchr;
use std::marker::Model;

/// The lines of a text that are not read yet, in order, without their LF. Bytes after the last LF
/// are a line; nothing after it is none, so an empty text has no line.
#[derive(Drop)]
pub struct Lines<'a> {
    rest: &'a [u8],
}

impl<'a> Model for Lines<'a> {
    ghost Value = { List (List ℕ) };

    ghost view = { λ lines. lines_of lines.rest.now };
}

impl<'a> Lines<'a> {
    /// All lines of a text.
    pub fn of(text: &'a [u8]) -> Lines<'a>
        ensures lines { result ≡ lines_of text.now }
        ensures few { length result ≤ length text.now }
    {
        Lines { rest: text }
    }

    /// Takes the next line, if there is one.
    pub fn next(&mut self) -> Option<&'a [u8]>
        ensures { MatchOption result ((self.old ≡ []) × (self.new ≡ []))
            (λ line. self.old ≡ line.now ∷ self.new) }
    {
        let (line, rest) = first_line(self.rest)?;
        self.rest = rest;
        Some(line)
    }
}

/// The first line of a text, and what stands after its LF.
#[tactic(auto, using(crate::proofs::Cuts::line_last))]
fn first_line(text: &[u8]) -> Option<(&[u8], &[u8])>
    ensures { MatchOption result (lines_of text.now ≡ [])
        (λ split. lines_of text.now ≡ split.0.now ∷ lines_of split.1.now) }
{
    match memchr(b'\n', text) {
        Some(i) => Some((&text[..i], &text[i + 1..])),
        None => last_line(text),
    }
}

/// The last line of a text, if it has a byte; nothing stands behind it.
fn last_line(line: &[u8]) -> Option<(&[u8], &[u8])>
    ensures { MatchOption result (closed line.now ≡ [])
        (λ split. closed line.now ≡ split.0.now ∷ lines_of split.1.now) }
{
    if line.is_empty() {
        None
    } else {
        Some((line, &[]))
    }
}

/// Whether a byte may stand in a line: tab, CR, or space to tilde.
fn is_written(byte: u8) -> bool
    ensures { result ≡ is_written byte }
{
    // `|` and not `||`: without a branch a byte the loop over a line is made of wide instructions,
    // and several times faster
    matches!(byte, b' '..=b'~') | (byte == b'\t') | (byte == b'\r')
}

/// Whether each byte of a line may stand in a line, those of a comment too.
pub fn is_clean(line: &[u8]) -> bool
    ensures { result ≡ is_clean line.now }
{
    let mut clean = true;
    for byte in line {
        clean &= is_written(*byte);
    }
    clean
}
