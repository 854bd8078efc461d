//! What stands before a line: the driver and the routine that are open there, and the names of
//! drivers and devices.

ghost use Rattle.std.specs.Prelude.{◌≡◌, ◌+◌, IfOk, length, max, min};
ghost use Rattle.text.specs.Cut.{lines_of};
ghost use Rattle.text.specs.Places.{IsIn};

use crate::form::Place;
use crate::names::Given;
use std::alloc::{AllocError, Global};
use text::class::is;
use text::piece::Piece;
use text::token::Tokens;
use text::{PlacedLines, Spot};

/// A driver or a routine that is open at a line.
#[derive(Drop)]
pub(crate) struct Opened<'a> {
    /// Where its first line stands.
    pub(crate) spot: Spot,
    pub(crate) name: Piece<'a>,
}

/// What stands before a line.
#[derive(Drop)]
pub(crate) struct Scope<'a> {
    /// The driver that is open there.
    pub(crate) driver: Option<Opened<'a>>,
    /// The routine that is open there.
    pub(crate) routine: Option<Opened<'a>>,
    /// The drivers that were named before, in order.
    pub(crate) drivers: Vec<Given<'a>>,
    /// The devices that were named before, in order.
    pub(crate) devices: Vec<Given<'a>>,
}

impl<'a> Scope<'a> {
    /// What stands before the first line.
    pub(crate) fn new(alloc: Global) -> Scope<'a> {
        Scope {
            driver: None,
            routine: None,
            drivers: Vec::new(alloc),
            devices: Vec::new(alloc),
        }
    }

    /// Passes the lines before that of a number, and answers where that one stands. Where there
    /// are fewer lines, it passes all, and answers where the next one would stand.
    pub(crate) fn pass_lines(&mut self, text: &'a [u8], number: u64) -> Result<Spot, AllocError>
        ensures there { IfOk result (IsIn 0 text.now) }
        ensures number { IfOk result
            (λ spot. spot.number ≡ min (max 1 number) (length (lines_of text.now) + 1)) }
    {
        let mut left = PlacedLines::of(text);
        while let Some(raw) = left.next() {
            let spot = left.spot();
            if spot.number >= number {
                return Ok(spot);
            }
            if may_matter(raw) {
                self.pass(spot, raw)?;
            }
        }
        Ok(left.end())
    }

    /// Passes a line that isn't at fault.
    fn pass(&mut self, spot: Spot, raw: &'a [u8]) -> Result<(), AllocError> {
        let mut tokens = Tokens::of(raw);
        let Some(word) = tokens.next() else {
            return Ok(());
        };
        let name = tokens.next();
        if is(word, b"driver") {
            self.driver = opened_by(spot, name);
            return add_given(&mut self.drivers, spot, raw, name);
        }
        if is(word, b"device") {
            return add_given(&mut self.devices, spot, raw, name);
        }
        if is(word, b"endd") {
            self.driver = None;
        } else if is(word, b"routine") {
            self.routine = opened_by(spot, name);
        } else if is(word, b"endr") {
            self.routine = None;
        }
        Ok(())
    }

    /// The kind of place.
    pub(crate) fn place(&self) -> Place {
        if self.routine.is_some() {
            Place::InRoutine
        } else if self.driver.is_some() {
            Place::InDriver
        } else {
            Place::Outside
        }
    }
}

/// Whether a line may name a driver, a device or a routine, or end one: by its first byte, which is
/// a blank or begins the word of such a line.
fn may_matter(raw: &[u8]) -> bool {
    matches!(raw.first(), Some(b'\t' | b'\r' | b' ' | b'd' | b'e' | b'r'))
}

fn opened_by<'a>(spot: Spot, name: Option<&'a [u8]>) -> Option<Opened<'a>> {
    Some(Opened {
        spot,
        name: Piece::of(name?),
    })
}

/// Adds the name that a line gives, if it has one.
fn add_given<'a>(
    names: &mut Vec<Given<'a>>,
    spot: Spot,
    raw: &'a [u8],
    name: Option<&'a [u8]>,
) -> Result<(), AllocError> {
    if let Some(name) = name {
        names.push(Given {
            number: spot.number,
            line: Piece::of(raw),
            name: Piece::of(name),
        })?;
    }
    Ok(())
}
