//! The tokens of a line, read one after another.

ghost use Rattle.std.specs.Prelude.{◌≡◌, ◌∷◌, [], List, ℕ, MatchOption};
ghost use Rattle.std.specs.List.{list_all};
ghost use Rattle.text.specs.Class.{is_token};
ghost use Rattle.text.specs.Cut.{closed, is_blank, tokens_of};

use crate::class::is_token;
use std::marker::Model;

/// The tokens of a line that are not read yet, in order.
#[derive(Drop)]
pub struct Tokens<'a> {
    rest: &'a [u8],
}

impl<'a> Model for Tokens<'a> {
    ghost Value = { List (List ℕ) };

    ghost view = { λ tokens. tokens_of tokens.rest.now };
}

impl<'a> Tokens<'a> {
    /// All tokens of a line: what stands before its comment, parted at blanks.
    pub fn of(line: &'a [u8]) -> Tokens<'a>
        ensures { result ≡ tokens_of line.now }
    {
        Tokens { rest: line }
    }

    /// Takes the next token, if there is one.
    pub fn next(&mut self) -> Option<&'a [u8]>
        ensures { MatchOption result ((self.old ≡ []) × (self.new ≡ []))
            (λ token. self.old ≡ token.now ∷ self.new) }
    {
        let (token, rest) = first_token(self.rest)?;
        self.rest = rest;
        Some(token)
    }

    /// Whether each of them is of a token's form.
    pub fn are_of_form(&self) -> bool
        ensures { result ≡ list_all is_token self.now }
    {
        let mut left = Tokens { rest: self.rest };
        while let Some(token) = left.next() {
            if !is_token(token) {
                return false;
            }
        }
        true
    }
}

/// The first token of a line, and what stands after the blank behind it; nothing does after a
/// comment's `;`.
#[tactic(auto, using(crate::proofs::Cuts::token_end))]
fn first_token(line: &[u8]) -> Option<(&[u8], &[u8])>
    ensures { MatchOption result (tokens_of line.now ≡ [])
        (λ split. tokens_of line.now ≡ split.0.now ∷ tokens_of split.1.now) }
{
    let mut start = 0;
    for (i, byte) in line.iter().enumerate() {
        if is_blank(*byte) {
            if start < i {
                return Some((&line[start..i], &line[i + 1..]));
            }
            start = i + 1;
        } else if *byte == b';' {
            return last_token(&line[start..i]);
        }
    }
    last_token(&line[start..])
}

/// The last token of a line, if it has a byte; nothing stands behind it.
fn last_token(token: &[u8]) -> Option<(&[u8], &[u8])>
    ensures { MatchOption result (closed token.now ≡ [])
        (λ split. closed token.now ≡ split.0.now ∷ tokens_of split.1.now) }
{
    if token.is_empty() {
        None
    } else {
        Some((token, &[]))
    }
}

/// Whether a byte parts tokens: tab, CR or space.
fn is_blank(byte: u8) -> bool
    ensures { result ≡ is_blank byte }
{
    matches!(byte, b'\t' | b'\r' | b' ')
}
