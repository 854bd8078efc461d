//! Where lines stand in a text, as regions of SARIF.

ghost use Rattle.std.specs.Prelude.{◌≡◌, ◌-◌, ◌≤◌, ◌<◌, ◌^◌, All, IfOk, length, slice_get};
ghost use Rattle.std.specs.Option.{option_and_then};
ghost use Rattle.text.specs.Places.{IsIn, numbers};
ghost use Rattle.text.specs.Cut.{lines_of};
ghost use Rattle.answer_explain.specs.Regions.{ends_with_cr, fault_region, indent, is_cr, passed};
ghost use Rattle.answer_explain.specs.Regions.{position_lines, refusal_region, region_at};
ghost use Rattle.answer_explain.specs.Regions.{region_of, region_on, text_end, units};
ghost use Rattle.answer_explain.specs.Regions.{units_of_byte, without_cr};

use asm_places::routine_source;
use drvhost_devices::reading::begins_image;
use model::abs::Refusal;
use report_sarif::log::{Place, Region};
use std::alloc::{AllocError, Global};
use text::cut::Lines;
use text::{Spots, line_at};

/// Where a refusal is in the bytes of a file.
///
/// # Errors
///
/// When memory runs out.
pub fn refusal_region(
    alloc: Global,
    bytes: &[u8],
    refusal: &Refusal,
) -> Result<Option<Region>, AllocError>
    ensures { IfOk result (λ region. region ≡ refusal_region bytes.now refusal.now) }
{
    let lines = position_lines(alloc, bytes, refusal.driver, refusal.routine)?;
    Ok(region_by(bytes, &lines, refusal.at))
}

/// Where the instructions of a routine stand in the bytes of a file.
pub(crate) fn position_lines(
    alloc: Global,
    bytes: &[u8],
    driver: u8,
    routine: u8,
) -> Result<Spots, AllocError>
    ensures lines { IfOk result
        (λ lines. numbers lines ≡ position_lines bytes.now driver routine) }
    ensures there { IfOk result (λ lines. All (IsIn 0 bytes.now) lines) }
{
    if begins_image(bytes) {
        return Ok(Spots::new(alloc));
    }
    let source = routine_source(alloc, bytes, driver, routine)?;
    Ok(source.lines)
}

/// Where the instruction of a position stands, by the lines of its routine.
pub(crate) fn region_by(bytes: &[u8], lines: &Spots, at: u16) -> Option<Region>
    requires { All (IsIn 0 bytes.now) lines.now }
    ensures { result ≡ option_and_then (region_at bytes.now) (slice_get (numbers lines.now) at) }
{
    let Some(spot) = lines.get(at as usize) else {
        return None;
    };
    let Some(raw) = line_at(bytes, spot) else {
        return None;
    };
    Some(region_on(spot.number, raw))
}

/// Where a fault of a text is that is told of the line of a number: one that is told of the line
/// behind the last, as that something was left open, is on the last. A text without a line has no
/// place for one.
pub fn fault_region(text: &[u8], number: u64) -> Option<Region>
    ensures { result ≡ fault_region text.now number }
{
    let count = count_lines(text);
    region_at(text, number.min(count))
}

/// How many lines a text has.
fn count_lines(text: &[u8]) -> u64
    ensures { result ≡ length (lines_of text.now) }
{
    let mut left = Lines::of(text);
    let mut count = 0;
    while let Some(_line) = left.next() {
        count += 1;
    }
    count
}

/// Where the line of a number stands in a text, if there is one.
pub(crate) fn region_at(text: &[u8], number: u64) -> Option<Region>
    ensures { result ≡ region_at text.now number }
{
    let mut left = Lines::of(text);
    for _ in 1..number {
        left.next()?;
    }
    let raw = left.next()?;
    Some(region_on(number, raw))
}

/// A line of a number from its first byte that is no blank to its end (3.30), of which the CR
/// before its LF is a part.
fn region_on(number: u64, raw: &[u8]) -> Region
    ensures { result ≡ region_on number raw.now }
{
    region_of(number, without_cr(raw))
}

/// The same of a line without its end.
fn region_of(number: u64, line: &[u8]) -> Region
    ensures { result ≡ region_of number line.now }
{
    Region {
        line: number,
        start: 1 + indent(line),
        end: 1 + units(line),
    }
}

/// A line without the CR before its LF.
fn without_cr(raw: &[u8]) -> &[u8]
    ensures { result.now ≡ without_cr raw.now }
{
    if !ends_with_cr(raw) {
        return raw;
    }
    &raw[..raw.len().saturating_sub(1)]
}

/// Whether a line ends with CR.
fn ends_with_cr(raw: &[u8]) -> bool
    ensures { result ≡ ends_with_cr raw.now }
{
    is_cr(raw.last().copied())
}

/// Whether a byte is there, and is CR.
fn is_cr(byte: Option<u8>) -> bool
    ensures { result ≡ is_cr byte }
{
    match byte {
        Some(byte) => byte == b'\r',
        None => false,
    }
}

/// Where a text ends: on the line behind its last LF, behind all that stands there.
pub fn text_end(text: &[u8]) -> Place
    ensures { result ≡ text_end text.now }
{
    let mut end = Place { line: 1, column: 1 };
    for byte in text {
        end = passed(*byte, end);
    }
    end
}

/// The place behind a byte of a text.
fn passed(byte: u8, place: Place) -> Place
    requires few { (place.line < 2 ^ 64 - 1) × (place.column < 2 ^ 64 - 2) }
    ensures { result ≡ passed byte place }
{
    if byte == b'\n' {
        return Place {
            line: place.line + 1,
            column: 1,
        };
    }
    Place {
        line: place.line,
        column: place.column + units_of_byte(byte),
    }
}

/// How many blanks a line begins with.
fn indent(raw: &[u8]) -> u64
    ensures blanks { result ≡ indent raw.now }
    ensures few { result < 2 ^ 64 - 1 }
{
    let mut count = 0;
    while let Some(b'\t' | b'\r' | b' ') = raw.get(count) {
        count += 1;
    }
    count as u64
}

/// How many units of UTF-16 a line has.
fn units(raw: &[u8]) -> u64
    ensures units { result ≡ units raw.now }
    ensures few { result < 2 ^ 64 - 1 }
{
    let mut all = 0;
    for byte in raw {
        all += units_of_byte(*byte);
    }
    all
}

/// How many of them the character has that a byte begins.
fn units_of_byte(byte: u8) -> u64
    ensures units { result ≡ units_of_byte byte }
    ensures few { result ≤ 2 }
{
    match byte {
        0..0x80 => 1,
        0x80..0xC0 => 0,
        0xC0..0xF0 => 1,
        0xF0.. => 2,
    }
}
