//! The names of the routines of a set, as its file gives them.

ghost use Rattle.std.specs.Prelude.{◌≡◌, ◌∷◌, List, ℕ, IfOk, MatchOption, map, string_bytes};
ghost use Rattle.std.specs.Str.Lossy.{utf8_lossy};
ghost use Rattle.asm_places.specs.Source.{body_on};
ghost use Rattle.text.specs.Cut.{lines_of};
ghost use Rattle.answer.specs.Names.{named_before, names_on, routine_names};

use asm_line::{Body, read_line};
use drvhost_devices::reading::begins_image;
use std::alloc::{AllocError, Global};
use text::cut::Lines;
use text::piece::Piece;

/// The names of the routines of the set that the bytes of a file name, by driver and then by
/// number. An image has none.
pub fn routine_names(alloc: Global, bytes: &[u8]) -> Result<Vec<String>, AllocError>
    ensures { IfOk result
        (λ names. map string_bytes names.items ≡ map utf8_lossy (routine_names bytes.now)) }
{
    if begins_image(bytes) {
        return Ok(Vec::new(alloc));
    }
    names_in(alloc, bytes)
}

/// The names of the routines that a text begins, in order.
fn names_in(alloc: Global, text: &[u8]) -> Result<Vec<String>, AllocError>
    ensures { IfOk result
        (λ names. map string_bytes names.items ≡ map utf8_lossy (names_on (lines_of text.now))) }
{
    let mut left = Lines::of(text);
    let mut names = Vec::new(alloc);
    while let Some(raw) = left.next() {
        if let Some(name) = routine_name(raw) {
            names.push(String::from_utf8_lossy(alloc, name.bytes())?)?;
        }
    }
    Ok(names)
}

/// The name of the routine that a line begins, if it begins one.
fn routine_name(raw: &[u8]) -> Option<Piece<'_>>
    ensures { (later : List (List ℕ)) → MatchOption result
        (named_before (body_on raw.now) later ≡ later)
        (λ name. named_before (body_on raw.now) later ≡ name ∷ later) }
{
    match read_line(raw).ok()?.body {
        Body::OpenRoutine(name, _) => Some(name),
        _ => None,
    }
}
