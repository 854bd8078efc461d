//! The lines that a text is made of beside its instructions.

ghost use Rattle.std.specs.Prelude.{◌≡◌, All, IfOk, false};
ghost use Rattle.asm_places.specs.Outline.{begins_outline, is_outline_word, may_begin};
ghost use Rattle.asm_places.specs.Outline.{outline_lines, outlines};
ghost use Rattle.asm_places.specs.Source.{body_on};
ghost use Rattle.text.specs.Places.{IsIn, numbers};

use asm_line::{Body, read_line};
use std::alloc::{AllocError, Global};
use text::class::is;
use text::token::Tokens;
use text::{PlacedLines, Spots};

/// Where the lines stand that begin or end a driver or a routine, or add a queue or a device, in
/// order.
///
/// # Errors
///
/// When memory runs out.
pub fn outline(alloc: Global, text: &[u8]) -> Result<Spots, AllocError>
    ensures lines { IfOk result (λ spots. numbers spots ≡ outline_lines text.now) }
    ensures there { IfOk result (λ spots. All (IsIn 0 text.now) spots) }
{
    let mut left = PlacedLines::of(text);
    let mut found = Spots::new(alloc);
    while let Some(raw) = left.next() {
        if may_outline(raw) && outlines(&body_on(raw)) {
            found.push(left.spot())?;
        }
    }
    Ok(found)
}

/// What a line says; one of no form says nothing.
pub(crate) fn body_on(raw: &[u8]) -> Body<'_>
    ensures { result ≡ body_on raw.now }
{
    match read_line(raw) {
        Ok(line) => line.body,
        Err(_) => Body::Blank,
    }
}

/// Whether a line that says this begins or ends a driver or a routine, or adds a queue or a device.
pub(crate) fn outlines(body: &Body<'_>) -> bool
    ensures { result ≡ outlines body.now }
{
    match body {
        Body::OpenDriver(_) | Body::CloseDriver | Body::OpenRoutine(_, _) => true,
        Body::CloseRoutine | Body::AddQueue(_, _, _) | Body::AddDevice(_, _, _, _) => true,
        _ => false,
    }
}

/// Whether a line may be one of these: its first word is one of theirs. Most lines are told apart
/// by their first byte.
#[tactic(auto, using(crate::proofs::Words::other_byte))]
pub(crate) fn may_outline(raw: &[u8]) -> bool
    ensures { result ≡ false → outlines (body_on raw.now) ≡ false }
{
    begins_outline(raw) && has_word(raw)
}

/// Whether a line begins with a blank, or as one of these words does.
fn begins_outline(raw: &[u8]) -> bool
    ensures { result ≡ begins_outline raw.now }
{
    match raw.first() {
        Some(first) => may_begin(*first),
        None => false,
    }
}

/// Whether a byte is a blank, or one of these words begins with it.
fn may_begin(byte: u8) -> bool
    ensures { result ≡ may_begin byte }
{
    matches!(byte, b'\t' | b'\r' | b' ' | b'd' | b'e' | b'q' | b'r')
}

/// Whether the first word of a line is one of these.
#[tactic(auto, using(crate::proofs::Words::no_word))]
fn has_word(raw: &[u8]) -> bool
    ensures { result ≡ false → outlines (body_on raw.now) ≡ false }
{
    match Tokens::of(raw).next() {
        Some(word) => is_outline_word(word),
        None => false,
    }
}

/// Whether a word is one with which such a line begins.
fn is_outline_word(word: &[u8]) -> bool
    ensures { result ≡ is_outline_word word.now }
{
    is(word, b"driver")
        || is(word, b"endd")
        || is(word, b"queue")
        || is(word, b"routine")
        || is(word, b"endr")
        || is(word, b"device")
}
