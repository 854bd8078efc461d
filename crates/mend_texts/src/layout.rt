//! How a line is laid out: what stands before its words, its label, its comment. A line that is
//! written anew keeps that.

use crate::label::{Label, add_bytes, add_label};
use model::items::Items;
use std::alloc::{AllocError, Global};
use words::Words;

/// A line, in parts.
#[derive(Clone, Copy)]
pub(crate) struct Parts<'a> {
    /// What stands before its first word.
    pub lead: &'a [u8],
    /// Its label, without the colon.
    pub label: Option<&'a [u8]>,
    /// What stands between the label and the next word.
    pub gap: &'a [u8],
    /// Its other words.
    pub body: &'a [u8],
    /// How many bytes stand before its comment.
    pub width: usize,
    /// Its comment, with what ends the line.
    pub comment: &'a [u8],
}

impl<'a> Parts<'a> {
    /// The same without a label and a comment, as a line beside it is laid out.
    pub fn bare(self) -> Parts<'a> {
        Parts {
            label: None,
            gap: &[],
            comment: if self.comment.ends_with(b"\r") {
                b"\r".as_slice()
            } else {
                &[]
            },
            ..self
        }
    }
}

/// The parts of a line.
pub(crate) fn parts_of(raw: &[u8]) -> Parts<'_> {
    let width = match raw.iter().position(|byte| *byte == b';') {
        Some(start) => start,
        None => length_closed(raw),
    };
    let (code, comment) = split(raw, width);
    let (lead, code) = split(code, blanks(code));
    let (code, _trail) = split(code, length_closed(code));
    let (first, rest) = split(code, word(code));
    match first.strip_suffix(b":".as_slice()) {
        Some(label) => {
            let (gap, body) = split(rest, blanks(rest));
            Parts {
                lead,
                label: Some(label),
                gap,
                body,
                width,
                comment,
            }
        }
        None => Parts {
            lead,
            label: None,
            gap: &[],
            body: code,
            width,
            comment,
        },
    }
}

/// A line with a label and words, laid out as another one is: with its comment, if it has one.
pub(crate) fn laid_out(
    alloc: Global,
    as_line: Parts<'_>,
    label: Option<Label<'_>>,
    words: &[u8],
) -> Result<String, AllocError> {
    let mut line = Words::new(alloc);
    match label {
        Some(label) => add_labelled(&mut line, as_line, label),
        None => add_bytes(&mut line, as_line.lead),
    }
    add_bytes(&mut line, words);
    if as_line.comment.starts_with(b";") {
        line.add(" ");
        for _ in line.text.len()..as_line.width {
            line.add(" ");
        }
    }
    add_bytes(&mut line, as_line.comment);
    line.finish()
}

/// Adds what stands before the words of a line with a label. One that is new takes the place of
/// blanks.
fn add_labelled(line: &mut Words, as_line: Parts<'_>, label: Label<'_>) {
    if as_line.label.is_some() {
        add_bytes(line, as_line.lead);
        add_name(line, label);
        add_bytes(line, as_line.gap)
    } else {
        add_name(line, label);
        line.add(" ");
        if let Some(blanks) = as_line.lead.get(line.text.len()..) {
            add_bytes(line, blanks)
        }
    }
}

/// Adds a label with its colon.
pub(crate) fn add_name(line: &mut Words, label: Label<'_>) {
    add_label(line, label);
    line.add(":")
}

/// A line whose word of an index is another one, or that has it behind the others if it has fewer.
pub(crate) fn with_word(
    alloc: Global,
    raw: &[u8],
    index: usize,
    new: &str,
) -> Result<String, AllocError> {
    let parts = parts_of(raw);
    let words = body_with_word(alloc, parts.body, index, new)?;
    laid_out(alloc, parts, None, words.as_bytes())
}

/// The same of the words of a line.
fn body_with_word(
    alloc: Global,
    body: &[u8],
    index: usize,
    new: &str,
) -> Result<String, AllocError> {
    let mut words = Words::new(alloc);
    let mut rest = body;
    for _ in 0..index {
        let (found, behind) = split(rest, word(rest));
        add_bytes(&mut words, found);
        let (gap, behind) = split(behind, blanks(behind));
        add_bytes(
            &mut words,
            if gap.is_empty() { b" ".as_slice() } else { gap },
        );
        rest = behind;
        if rest.is_empty() {
            break;
        }
    }
    words.add(new);
    let (_replaced, behind) = split(rest, word(rest));
    add_bytes(&mut words, behind);
    words.finish()
}

/// Bytes in two parts.
fn split(bytes: &[u8], at: usize) -> (&[u8], &[u8]) {
    if at <= bytes.len() {
        bytes.split_at(at)
    } else {
        (bytes, &[])
    }
}

/// How many blanks bytes begin with.
fn blanks(bytes: &[u8]) -> usize {
    match bytes.iter().position(|byte| !is_blank(*byte)) {
        Some(count) => count,
        None => bytes.len(),
    }
}

/// How many bytes stand before the first blank.
fn word(bytes: &[u8]) -> usize {
    match bytes.iter().position(|byte| is_blank(*byte)) {
        Some(count) => count,
        None => bytes.len(),
    }
}

/// How many bytes there are up to the last that is no blank.
fn length_closed(bytes: &[u8]) -> usize {
    let mut length = 0;
    for (index, byte) in bytes.iter().enumerate() {
        if !is_blank(*byte) {
            length = index.saturating_add(1);
        }
    }
    length
}

/// Whether a byte is a blank.
fn is_blank(byte: u8) -> bool {
    matches!(byte, b' ' | b'\t' | b'\r')
}

/// The bytes of a line.
pub(crate) fn line_of(line: String) -> Items<u8> {
    Items::of(line.into_bytes())
}
