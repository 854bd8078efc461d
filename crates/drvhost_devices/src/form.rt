//! Which part of a line is painted, by the line's form.

ghost use Rattle.std.specs.Prelude.{◌≡◌, map};
ghost use Rattle.drvhost_devices.specs.Forms.{beginning_in, color_of, color_within, has_any};
ghost use Rattle.drvhost_devices.specs.Forms.{has_part, span_of, up_to_end};

use crate::paint::Color;

/// The part of a line that is painted: from its start up to an end; and its colour.
#[derive(Clone, Copy)]
pub(crate) struct Span {
    pub(crate) end: usize,
    pub(crate) color: Color,
}

/// The part of a line that is painted, if one is: all of it, or the words with which it begins.
pub(crate) fn span_of(line: &[u8]) -> Option<Span>
    ensures { result ≡ span_of line.now }
{
    if let Some(color) = color_of(line) {
        return Some(Span {
            end: up_to_end(line),
            color,
        });
    }
    let heads: [&[u8]; 11] = [
        b"why:",
        b"see:",
        b"mend it:",
        b"show it:",
        b"at fault:",
        b"a path there:",
        b"one path there:",
        b"another path there:",
        b"what differs:",
        b"what is known where it arrives:",
        b"audit",
    ];
    match beginning_in(line, &heads) {
        Some(end) => Some(Span {
            end,
            color: Color::Place,
        }),
        None => None,
    }
}

/// How long a line is without its end.
fn up_to_end(line: &[u8]) -> usize
    ensures { result ≡ up_to_end line.now }
{
    if line.ends_with(b"\n") {
        line.len() - 1
    } else {
        line.len()
    }
}

/// The colour of a line that is painted whole, by the words with which it begins or, where it isn't
/// indented as a quotation is, by others.
fn color_of(line: &[u8]) -> Option<Color>
    ensures { result ≡ color_of line.now }
{
    let good: [&[u8]; 2] = [b"accepted", b"nothing is amiss"];
    let bad: [&[u8]; 6] = [
        b"refused ",
        b"text fault ",
        b"image fault ",
        b"schedule fault ",
        b"  > ",
        b"the run was stopped",
    ];
    if beginning_in(line, &good).is_some() {
        return Some(Color::Good);
    }
    if beginning_in(line, &bad).is_some() {
        return Some(Color::Bad);
    }
    if line.starts_with(b"in ") {
        return Some(Color::Place);
    }
    if line.starts_with(b" ") {
        return None;
    }
    color_within(line)
}

/// The colour of a line by words behind the number of an event, or in a remark of an audit.
fn color_within(line: &[u8]) -> Option<Color>
    ensures { result ≡ color_within line.now }
{
    let bad: [&[u8]; 5] = [
        b" bug 0x",
        b" wrong ",
        b" is lost: ",
        b" is left behind: ",
        b" waits in a ring",
    ];
    let doubtful: [&[u8]; 3] = [
        b" refused ",
        b" is still to be cancelled: ",
        b" was refused: ",
    ];
    if has_any(line, &bad) {
        return Some(Color::Bad);
    }
    if has_any(line, &doubtful) {
        return Some(Color::Warning);
    }
    None
}

/// How long the first of these words are with which a line begins.
fn beginning_in(line: &[u8], all: &[&[u8]]) -> Option<usize>
    ensures { result ≡ beginning_in line.now (map (λ words. words.now) all.now) }
{
    for words in all {
        if line.starts_with(words) {
            return Some(words.len());
        }
    }
    None
}

/// Whether any of these words stand in a line.
fn has_any(line: &[u8], all: &[&[u8]]) -> bool
    ensures { result ≡ has_any line.now (map (λ words. words.now) all.now) }
{
    for words in all {
        if has_part(line, words) {
            return true;
        }
    }
    false
}

/// Whether words stand in a line.
fn has_part(line: &[u8], words: &[u8]) -> bool
    ensures { result ≡ has_part words.now line.now }
{
    let mut rest = line;
    while let Some((_first, later)) = rest.split_first() {
        if rest.starts_with(words) {
            return true;
        }
        rest = later;
    }
    false
}
