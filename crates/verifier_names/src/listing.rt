//! The parts of a set's listing that tell of a routine and of the devices. The whole listing isn't
//! written for them: the numbers of lines are counted.

use asm_line::Entry;
use driver_set::DriverSet;
use model::instr::Instr;
use model::set::{Driver, Routine};
use model::status::Major;
use std::alloc::{AllocError, Global};
use text::{PlacedLines, Spots};
use words::Words;

/// More lines than stand in a listing.
const MOST: u64 = 1 << 32;

/// Lines of a listing.
#[derive(Drop)]
pub struct ListedPart {
    pub text: String,
    /// Where lines of it stand: by their numbers in the whole listing, and by the bytes of this
    /// part.
    pub spots: Spots,
}

/// The lines of the routine of a number in the driver of a number, with a line on each side, and
/// where its instructions stand.
pub fn listed_routine(
    alloc: Global,
    set: &DriverSet,
    driver: u8,
    routine: u8,
) -> Result<ListedPart, AllocError> {
    let mut words = Words::new(alloc);
    let mut count = 0;
    let mut before = 0;
    if let Some(its) = set.drivers().get(driver as usize) {
        let routines = its.routines.as_slice();
        if let Some(found) = routines.get(routine as usize) {
            add_round(alloc, &mut words, driver, its, routine, found);
            count = found.code.as_slice().len();
        }
        before = lines_of_drivers(set.drivers(), driver)
            .saturating_add(lines_of_head(its))
            .saturating_add(lines_of_routines(routines, routine));
    }
    part_of(alloc, words, before.saturating_sub(1), 2, count)
}

/// The lines of the devices of a set, and where they stand.
pub fn listed_devices(alloc: Global, set: &DriverSet) -> Result<ListedPart, AllocError> {
    let mut words = Words::new(alloc);
    for (number, device) in set.devices().iter().enumerate() {
        add_entry(&mut words, Entry::Device(number, *device));
    }
    let before = lines_of_drivers(set.drivers(), u8::MAX);
    part_of(alloc, words, before, 0, set.devices().len())
}

/// These words, and where so many of their lines stand, likewise.
fn part_of(
    alloc: Global,
    words: Words,
    skipped: u64,
    first: usize,
    count: usize,
) -> Result<ListedPart, AllocError> {
    let text = words.finish()?;
    placed(alloc, text, skipped, first, count)
}

/// A text, and where so many of its lines stand, likewise.
fn placed(
    alloc: Global,
    text: String,
    skipped: u64,
    first: usize,
    count: usize,
) -> Result<ListedPart, AllocError> {
    let spots = spots_of(alloc, text.as_bytes(), skipped, first, count)?;
    Ok(ListedPart { text, spots })
}

/// Where so many lines stand, from the one of an index on, in a text before which so many stand.
fn spots_of(
    alloc: Global,
    text: &[u8],
    skipped: u64,
    first: usize,
    count: usize,
) -> Result<Spots, AllocError> {
    let mut left = PlacedLines::behind(text, skipped.min(MOST));
    let mut spots = Spots::new(alloc);
    for index in 0..first.saturating_add(count) {
        if left.next().is_some() && index >= first {
            spots.push(left.spot())?;
        }
    }
    Ok(spots)
}

/// Adds the lines of a routine of a driver, with a line on each side.
fn add_round(
    alloc: Global,
    words: &mut Words,
    driver: u8,
    its: &Driver,
    number: u8,
    routine: &Routine,
) {
    add_entry(words, line_before(driver, its, number));
    add_entry(words, Entry::Routine(number as usize, routine.sort));
    match marks_of(alloc, routine.code.as_slice()) {
        Ok(marks) => add_code(words, routine.code.as_slice(), marks.as_slice()),
        Err(AllocError) => words.lacks = true,
    }
    add_entry(words, Entry::EndRoutine);
    add_entry(words, line_behind(its.routines.as_slice(), number))
}

/// Adds the line of an entry.
fn add_entry(words: &mut Words, entry: Entry) {
    let done = entry.write(&mut words.text);
    words.note(done)
}

/// Adds the lines of instructions, with labels where a mark is.
fn add_code(words: &mut Words, code: &[Instr], marks: &[bool]) {
    for (position, instr) in code.iter().enumerate() {
        let label = match marks.get(position) {
            Some(true) => Some(position),
            _ => None,
        };
        add_entry(words, Entry::Step(label, *instr));
    }
}

/// Marks the positions that instructions jump to.
fn marks_of(alloc: Global, code: &[Instr]) -> Result<Vec<bool>, AllocError> {
    let mut marks = vec![in alloc; false; code.len()]?;
    for instr in code {
        if let Some(label) = instr.label() {
            if let Some(mark) = marks.get_mut(label as usize) {
                *mark = true;
            }
        }
    }
    Ok(marks)
}

/// The line before that of a routine of a driver.
fn line_before(number: u8, driver: &Driver, routine: u8) -> Entry {
    if routine > 0 {
        return Entry::EndRoutine;
    }
    if let Some(dpc) = driver.dpc {
        return Entry::Dpc(dpc);
    }
    if let Some(startio) = driver.startio {
        return Entry::StartIo(startio, driver.startio_cancel);
    }
    match last_handler(driver) {
        Some(handler) => handler,
        None => last_queue(number, driver),
    }
}

/// The line behind that of a routine of a driver with these.
fn line_behind(routines: &[Routine], routine: u8) -> Entry {
    let next = (routine as usize).saturating_add(1);
    match routines.get(next) {
        Some(found) => Entry::Routine(next, found.sort),
        None => Entry::EndDriver,
    }
}

/// The last line that names a routine for a major function, if there is one.
fn last_handler(driver: &Driver) -> Option<Entry> {
    if let Some(routine) = driver.control {
        return Some(Entry::Handler(Major::Control, routine));
    }
    if let Some(routine) = driver.write {
        return Some(Entry::Handler(Major::Write, routine));
    }
    Some(Entry::Handler(Major::Read, driver.read?))
}

/// The line of the last queue of a driver, or the driver's where it has none.
fn last_queue(number: u8, driver: &Driver) -> Entry {
    let queues = driver.queues.as_slice();
    let last = queues.len().saturating_sub(1);
    match queues.get(last) {
        Some(queue) => Entry::Queue(last, *queue),
        None => Entry::Driver(number as usize),
    }
}

/// The lines of so many drivers.
fn lines_of_drivers(drivers: &[Driver], count: u8) -> u64 {
    let mut lines: u64 = 0;
    for driver in drivers.iter().take(count as usize) {
        let routines = lines_of_routines(driver.routines.as_slice(), u8::MAX);
        lines = lines
            .saturating_add(lines_of_head(driver))
            .saturating_add(routines)
            .saturating_add(1);
    }
    lines
}

/// The lines of a driver before its routines.
fn lines_of_head(driver: &Driver) -> u64 {
    let mut lines = (driver.queues.as_slice().len() as u64).saturating_add(1);
    for entry in [
        driver.read,
        driver.write,
        driver.control,
        driver.startio,
        driver.dpc,
    ] {
        if entry.is_some() {
            lines = lines.saturating_add(1);
        }
    }
    lines
}

/// The lines of so many routines.
fn lines_of_routines(routines: &[Routine], count: u8) -> u64 {
    let mut lines: u64 = 0;
    for routine in routines.iter().take(count as usize) {
        let code = routine.code.as_slice().len() as u64;
        lines = lines.saturating_add(code).saturating_add(2);
    }
    lines
}
