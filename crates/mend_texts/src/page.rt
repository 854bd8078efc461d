//! A driver text by its lines, with the names in it and where things stand.

use asm_line::{Body, read_line};
use asm_places::outline;
use std::alloc::{AllocError, Global};
use text::cut::Lines;
use text::{Spots, line_at};
use verifier_names::SetNames;

/// A thing that has a line of its own, by the numbers of its driver and of itself.
#[derive(Clone, Copy, PartialEq, Eq)]
pub(crate) enum Thing {
    Driver(u8),
    Queue(u8, u8),
    Routine(u8, u8),
    RoutineEnd(u8, u8),
    Device(u8),
}

/// A text.
#[derive(Drop)]
pub(crate) struct Page<'a> {
    pub text: &'a [u8],
    pub lines: Vec<&'a [u8]>,
    pub names: SetNames<'a>,
    outline: Spots,
}

impl<'a> Page<'a> {
    /// A text, read line by line.
    pub fn of(alloc: Global, text: &'a [u8]) -> Result<Page<'a>, AllocError> {
        let outline = outline(alloc, text)?;
        Ok(Page {
            text,
            lines: lines_of(alloc, text)?,
            names: SetNames::of(alloc, text, &outline)?,
            outline,
        })
    }

    /// The line of an index, from 0.
    pub fn line(&self, index: usize) -> &'a [u8] {
        match self.lines.get(index) {
            Some(line) => *line,
            None => &[],
        }
    }

    /// The index of the line of a thing.
    pub fn line_of(&self, thing: Thing) -> Option<usize> {
        let mut counts = Counts::none();
        for spot in self.outline.as_slice() {
            let raw = line_at(self.text, *spot)?;
            if counts.next(raw) == Some(thing) {
                return Some(index_of(spot.number));
            }
        }
        None
    }
}

/// The lines of a text, each without its LF.
fn lines_of(alloc: Global, text: &[u8]) -> Result<Vec<&[u8]>, AllocError> {
    let mut lines = Vec::new(alloc);
    let mut left = Lines::of(text);
    while let Some(line) = left.next() {
        lines.push(line)?;
    }
    Ok(lines)
}

/// The index of a line, by its number.
pub(crate) fn index_of(number: u64) -> usize {
    number.saturating_sub(1) as usize
}

/// The number of a line, by its index.
pub(crate) fn number_of(index: usize) -> u64 {
    (index as u64).saturating_add(1)
}

/// How many things have been passed: drivers and devices, and queues and routines of the driver.
#[derive(Clone, Copy)]
struct Counts {
    drivers: u8,
    queues: u8,
    routines: u8,
    devices: u8,
}

impl Counts {
    fn none() -> Counts {
        Counts {
            drivers: 0,
            queues: 0,
            routines: 0,
            devices: 0,
        }
    }

    /// What a line of an outline is the line of.
    fn next(&mut self, raw: &[u8]) -> Option<Thing> {
        let Ok(line) = read_line(raw) else {
            return None;
        };
        let driver = self.drivers.saturating_sub(1);
        match line.body {
            Body::OpenDriver(_) => {
                self.queues = 0;
                self.routines = 0;
                Some(Thing::Driver(count(&mut self.drivers)))
            }
            Body::AddQueue(..) => Some(Thing::Queue(driver, count(&mut self.queues))),
            Body::OpenRoutine(..) => Some(Thing::Routine(driver, count(&mut self.routines))),
            Body::CloseRoutine => {
                Some(Thing::RoutineEnd(driver, self.routines.saturating_sub(1)))
            }
            Body::AddDevice(..) => Some(Thing::Device(count(&mut self.devices))),
            _ => None,
        }
    }
}

/// Counts one more, and answers how many there were.
fn count(counted: &mut u8) -> u8 {
    let before = *counted;
    *counted = before.saturating_add(1);
    before
}
