//! The head of a hunk of a unified diff.

ghost use Rattle.std.specs.Prelude.{◌≡◌, ◌<◌, IfSome, Some, length, nat_eq};
ghost use Rattle.std.specs.List.{position};
ghost use Rattle.mend_edits.specs.Diff.{before, head_in, range_in, range_of};

use text::class::is;
use text::number::{Numeral, numbered};
use text::token::Tokens;

/// Lines of a text that a hunk shows.
#[derive(Clone, Copy)]
pub struct Range {
    /// The number of the first, from 1; of the line before them where there is none.
    pub first: u64,
    /// How many they are.
    pub count: u64,
}

impl Range {
    /// How many lines stand before them.
    pub fn before(self) -> u64
        ensures { result ≡ before self }
    {
        if self.count == 0 {
            self.first
        } else {
            self.first.saturating_sub(1)
        }
    }
}

/// The head of a hunk: which lines of both texts it shows.
#[derive(Clone, Copy)]
pub struct Head {
    pub old: Range,
    pub new: Range,
}

/// The head of a hunk that a line of a diff is, if it is one.
pub fn head_in(line: &[u8]) -> Option<Head>
    ensures { IfSome result (λ head. head_in line.now ≡ Some head) }
{
    let mut parts = Tokens::of(line);
    let first = (parts.next(), parts.next(), parts.next(), parts.next());
    match (first, parts.next()) {
        ((Some(opening), Some(old), Some(new), Some(closing)), None)
            if is(opening, b"@@") && is(closing, b"@@") => {
            match (range_in(b'-', old), range_in(b'+', new)) {
                (Some(old), Some(new)) => Some(Head { old, new }),
                _ => None,
            }
        }
        _ => None,
    }
}

/// The range that a part of a head tells behind this sign.
fn range_in(sign: u8, token: &[u8]) -> Option<Range>
    ensures { IfSome result (λ range. range_in sign token.now ≡ Some range) }
{
    let comma = comma_in(token)?;
    let (first, count) = token.split_at(comma);
    range_of(numbered(sign, first), numbered(b',', count))
}

/// Where the first comma of a token stands.
fn comma_in(token: &[u8]) -> Option<usize>
    ensures first { result ≡ position (λ b. nat_eq b 44) token.now }
    ensures within { IfSome result (λ comma. comma < length token.now) }
{
    token.iter().position(|byte| *byte == b',')
}

/// A range by both of its numbers.
fn range_of(first: Numeral, count: Numeral) -> Option<Range>
    ensures { result ≡ range_of first count }
{
    match (first, count) {
        (Numeral::Number(first), Numeral::Number(count)) => Some(Range { first, count }),
        _ => None,
    }
}
