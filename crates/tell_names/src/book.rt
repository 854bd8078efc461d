//! What things are called and where instructions stand, as a text has it.

use crate::blanks::blanks_before_change;
use crate::named::add_number;
use asm_line::{Body, Line, read_line};
use model::view::FrameView;
use std::alloc::{AllocError, Global};
use text::piece::Piece;
use text::{PlacedLines, add_bytes};
use words::Words;

/// Where an instruction stands.
#[derive(Clone, Copy)]
pub struct Place {
    /// The number of its line.
    pub number: u64,
    /// Where the words on it begin and end among those on all places, and the blanks behind them.
    start: usize,
    end: usize,
    padded: usize,
    /// Where among them its label begins and ends: at the same place if it has none.
    label: usize,
    label_end: usize,
}

/// A driver of a text: its name, those of its routines and queues, and the places of the
/// instructions of each routine.
#[derive(Drop)]
struct DriverPage<'a> {
    name: Piece<'a>,
    routines: Vec<Piece<'a>>,
    queues: Vec<Piece<'a>>,
    places: Vec<Vec<Place>>,
}

impl<'a> DriverPage<'a> {
    /// Notes a routine, which has no instructions yet.
    fn open_routine(&mut self, alloc: Global, name: Piece<'a>) -> Result<(), AllocError> {
        self.routines.push(name)?;
        self.places.push(Vec::new(alloc))?;
        Ok(())
    }

    /// Notes the place of an instruction of the last routine.
    fn note_place(&mut self, place: Place) -> Result<(), AllocError> {
        if let Some(places) = self.places.last_mut() {
            places.push(place)?;
        }
        Ok(())
    }
}

/// The names and the lines of a text.
#[derive(Drop)]
pub struct Book<'a> {
    drivers: Vec<DriverPage<'a>>,
    devices: Vec<Piece<'a>>,
    /// The words on all places, made once: they are told again at each step.
    places: Words,
}

impl<'a> Book<'a> {
    /// Those of a text.
    ///
    /// # Errors
    ///
    /// When memory runs out.
    pub fn of(alloc: Global, text: &'a [u8]) -> Result<Book<'a>, AllocError> {
        let mut book = Book {
            drivers: Vec::new(alloc),
            devices: Vec::new(alloc),
            places: Words::new(alloc),
        };
        let mut left = PlacedLines::of(text);
        while let Some(raw) = left.next() {
            book.note(alloc, raw, left.spot().number)?;
        }
        Ok(book)
    }

    /// Notes what a line names, or that it is an instruction.
    fn note(&mut self, alloc: Global, raw: &'a [u8], number: u64) -> Result<(), AllocError> {
        let Ok(line) = read_line(raw) else {
            return Ok(());
        };
        let label = label_length(&line);
        match line.body {
            Body::Step(_, _) => self.note_instruction(raw, number, label),
            body => self.note_name(alloc, body),
        }
    }

    /// Notes what a line names, if it names something.
    fn note_name(&mut self, alloc: Global, body: Body<'a>) -> Result<(), AllocError> {
        match body {
            Body::OpenDriver(name) => self.open_driver(alloc, name)?,
            Body::OpenRoutine(name, _) => {
                if let Some(page) = self.drivers.last_mut() {
                    page.open_routine(alloc, name)?;
                }
            }
            Body::AddQueue(name, _, _) => {
                if let Some(page) = self.drivers.last_mut() {
                    page.queues.push(name)?;
                }
            }
            Body::AddDevice(name, _, _, _) => self.devices.push(name)?,
            _ => {}
        }
        Ok(())
    }

    /// Notes a driver, which has no routines yet.
    fn open_driver(&mut self, alloc: Global, name: Piece<'a>) -> Result<(), AllocError> {
        self.drivers.push(DriverPage {
            name,
            routines: Vec::new(alloc),
            queues: Vec::new(alloc),
            places: Vec::new(alloc),
        })?;
        Ok(())
    }

    /// Notes the line of an instruction of the last routine, with a label of so many bytes.
    fn note_instruction(
        &mut self,
        raw: &[u8],
        number: u64,
        label_length: usize,
    ) -> Result<(), AllocError> {
        let place = self.make_place(raw, number, label_length);
        if self.places.lacks {
            return Err(AllocError);
        }
        match self.drivers.last_mut() {
            Some(page) => page.note_place(place),
            None => Ok(()),
        }
    }

    /// Makes the words on the place of that instruction.
    fn make_place(&mut self, raw: &[u8], number: u64, label_length: usize) -> Place {
        let start = self.places.text.len();
        self.make_head(number);
        let label = self.places.text.len();
        add_letters(&mut self.places, without_comment(raw).trim_ascii());
        let end = self.places.text.len();
        self.places
            .add(blanks_before_change(end.saturating_sub(start)));
        Place {
            number,
            start,
            end,
            padded: self.places.text.len(),
            label,
            label_end: label.saturating_add(label_length),
        }
    }

    /// Makes the beginning of the words on a place: the routine, and the number of the line. Behind
    /// it comes what stands there without its comment and blanks round it.
    fn make_head(&mut self, number: u64) {
        if let Some(name) = self.drivers.last().and_then(|page| page.routines.last()) {
            add_letters(&mut self.places, name.bytes());
        }
        self.places.add(" ");
        add_number(&mut self.places, number);
        self.places.add(": ")
    }

    /// Where the instruction of a position of a routine stands.
    pub fn line_of(&self, driver: u8, routine: u8, position: u16) -> Option<Place> {
        let page = self.drivers.get(driver as usize)?;
        let places = page.places.get(routine as usize)?;
        places.get(position as usize).copied()
    }

    /// Where the instruction stands at which a frame does, if it is a routine's.
    pub fn line_at(&self, frame: FrameView) -> Option<Place> {
        match frame {
            FrameView::Routine {
                driver,
                routine,
                position,
                device: _,
            } => self.line_of(driver, routine, position),
            FrameView::Walk(_) | FrameView::Cancel(_) => None,
        }
    }

    /// The routine and the line of that instruction.
    pub fn words_of(&self, place: Place) -> &str {
        self.places
            .text
            .as_str()
            .get(place.start..place.end)
            .unwrap_or("")
    }

    /// The same, with the blanks up to where it is told what changed.
    pub fn words_before_change(&self, place: Place) -> &str {
        self.places
            .text
            .as_str()
            .get(place.start..place.padded)
            .unwrap_or("")
    }

    /// Where the instruction stands behind which a routine has none, if it has any.
    pub fn last_line(&self, driver: u8, routine: u8) -> Option<Place> {
        let page = self.drivers.get(driver as usize)?;
        let places = page.places.get(routine as usize)?;
        places.last().copied()
    }

    /// Adds the label of a position of a routine to which an instruction jumps.
    pub fn add_label(&self, words: &mut Words, driver: u8, routine: u8, position: u16) {
        if let Some(place) = self.line_of(driver, routine, position) {
            let label = self.places.text.as_str().get(place.label..place.label_end);
            words.add(label.unwrap_or(""))
        }
    }

    /// Adds the routine and the line of that instruction.
    pub fn add_place(&self, words: &mut Words, driver: u8, routine: u8, position: u16) {
        if let Some(place) = self.line_of(driver, routine, position) {
            return words.add(self.words_of(place));
        }
        self.add_routine(words, driver, routine);
        words.add(" at ");
        add_number(words, u64::from(position))
    }

    /// Adds where a frame stands: its routine and the line of its instruction by its number, or
    /// what the I/O manager does.
    pub fn add_spot(&self, words: &mut Words, frame: FrameView) {
        match frame {
            FrameView::Routine {
                driver,
                routine,
                position,
                device: _,
            } => {
                self.add_routine(words, driver, routine);
                if let Some(place) = self.line_of(driver, routine, position) {
                    words.add(" ");
                    add_number(words, place.number)
                }
            }
            FrameView::Walk(_) => words.add("IoCompleteRequest"),
            FrameView::Cancel(_) => words.add("IoCancelIrp"),
        }
    }

    /// Adds the name of a routine.
    pub fn add_routine(&self, words: &mut Words, driver: u8, routine: u8) {
        let page = self.drivers.get(driver as usize);
        match page.and_then(|page| page.routines.get(routine as usize)) {
            Some(name) => add_letters(words, name.bytes()),
            None => words.add("(default)"),
        }
    }

    /// Adds the name of a queue of a driver.
    pub fn add_queue(&self, words: &mut Words, driver: u8, queue: u8) {
        let page = self.drivers.get(driver as usize);
        let name = page.and_then(|page| page.queues.get(queue as usize));
        add_name(words, name, "q", queue)
    }

    /// Adds the name of a device.
    pub fn add_device(&self, words: &mut Words, device: u8) {
        add_name(words, self.devices.get(device as usize), "device ", device)
    }
}

/// Adds a name, or in its place these words and a number.
fn add_name(words: &mut Words, name: Option<&Piece<'_>>, unnamed: &str, number: u8) {
    match name {
        Some(name) => add_letters(words, name.bytes()),
        None => {
            words.add(unnamed);
            add_number(words, u64::from(number))
        }
    }
}

/// Adds bytes of the text.
fn add_letters(words: &mut Words, bytes: &[u8]) {
    let done = add_bytes(&mut words.text, bytes);
    words.note(done)
}

/// How many bytes the label of a line has.
fn label_length(line: &Line<'_>) -> usize {
    match &line.label {
        Some(label) => label.bytes().len(),
        None => 0,
    }
}

/// What stands on a line before its comment.
fn without_comment(raw: &[u8]) -> &[u8] {
    match raw.iter().position(|byte| *byte == b';') {
        Some(end) => raw.get(..end).unwrap_or(raw),
        None => raw,
    }
}
