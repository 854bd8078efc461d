//! Texts that are painted.

ghost use Rattle.std.specs.Prelude.{◌≡◌, ◌++◌, ◌<◌, ◌==◌, IfOk, OnOk, length};
ghost use Rattle.std.specs.List.{list_any};
ghost use Rattle.drvhost_devices.specs.Painted.{AddsLine, AddsText, HasNoEscape, IsFirstLine};
ghost use Rattle.drvhost_devices.specs.Painted.{IsPainted, begins};

use crate::form::{Span, span_of};
use memchr::memchr;
use std::alloc::{AllocError, Global};

/// The byte with which each sequence begins.
const ESCAPE: u8 = 27;

/// What a part of a line is painted as.
#[derive(Clone, Copy)]
pub enum Color {
    /// What went well: green.
    Good,
    /// What went wrong: red, bold.
    Bad,
    /// What may be wrong: yellow.
    Warning,
    /// Where something is, and what a line is about: bold.
    Place,
}

impl Color {
    /// The sequence that begins it.
    fn begins(self) -> &'static [u8]
        ensures { result.now ≡ begins self }
    {
        match self {
            Color::Good => b"\x1b[32m",
            Color::Bad => b"\x1b[1;31m",
            Color::Warning => b"\x1b[33m",
            Color::Place => b"\x1b[1m",
        }
    }
}

/// The sequence that ends any.
const END: &[u8] = b"\x1b[0m";

/// Paints a text line by line, each by its form: with the sequences taken out it is the text, byte
/// for byte. One that has an escape of its own stays as it is.
///
/// # Errors
///
/// When memory runs out.
pub fn paint(alloc: Global, text: &[u8]) -> Result<Vec<u8>, AllocError>
    ensures { IfOk result (λ painted. IsPainted text.now painted.items) }
{
    let mut painted = Vec::new(alloc);
    if has_escape(text) {
        painted.extend_from_slice(text)?;
        return Ok(painted);
    }
    paint_lines(text, &mut painted)?;
    Ok(painted)
}

/// Whether a text has an escape.
fn has_escape(text: &[u8]) -> bool
    ensures { result ≡ list_any (λ byte. byte == 27) text.now }
{
    text.iter().any(|byte| *byte == ESCAPE)
}

/// Adds the lines of a text, painted.
fn paint_lines(text: &[u8], painted: &mut Vec<u8>) -> Result<(), AllocError>
    requires { HasNoEscape text.now }
    ensures { OnOk result (AddsText text.now painted.old.items painted.new.items) }
{
    let mut rest = text;
    while !rest.is_empty() {
        let (line, after) = split_line(rest);
        paint_line(line, painted)?;
        rest = after;
    }
    Ok(())
}

/// The first line of a text with its end, and what stands behind it.
fn split_line(text: &[u8]) -> (&[u8], &[u8])
    requires { 0 < length text.now }
    ensures parts { text.now ≡ result.0.now ++ result.1.now }
    ensures some { 0 < length result.0.now }
    ensures line { IsFirstLine result.0.now result.1.now }
{
    match memchr(b'\n', text) {
        Some(end) => text.split_at(end + 1),
        None => text.split_at(text.len()),
    }
}

/// Adds a line, painted by its form.
fn paint_line(line: &[u8], painted: &mut Vec<u8>) -> Result<(), AllocError>
    requires { HasNoEscape line.now }
    ensures { OnOk result (AddsLine line.now painted.old.items painted.new.items) }
{
    let Some(span) = span_of(line) else {
        painted.extend_from_slice(line)?;
        return Ok(());
    };
    let Span { end, color } = span;
    let (part, tail) = line.split_at(end.min(line.len()));
    painted.extend_from_slice(color.begins())?;
    painted.extend_from_slice(part)?;
    painted.extend_from_slice(END)?;
    painted.extend_from_slice(tail)?;
    Ok(())
}
