//! What things are called: as a text names them, or by their numbers, as a listing does.

use asm_line::{Body, read_line};
use model::set::QueueName;
use std::alloc::{AllocError, Global};
use text::piece::Piece;
use text::{Spots, add_bytes, line_at};
use words::Words;

/// The name of a driver, and those of its routines and queues, in order.
#[derive(Drop)]
pub struct DriverNames<'a> {
    driver: Piece<'a>,
    routines: Vec<Piece<'a>>,
    queues: Vec<Piece<'a>>,
}

/// What the drivers of a set are called, and the things in them.
#[derive(Drop)]
pub enum SetNames<'a> {
    /// As a text names them.
    Given(Vec<DriverNames<'a>>),
    /// By a letter and their numbers.
    Listed,
}

impl<'a> SetNames<'a> {
    /// As the lines of a text name them that are its outline.
    pub fn of(alloc: Global, text: &'a [u8], outline: &Spots) -> Result<SetNames<'a>, AllocError> {
        let mut drivers = Vec::new(alloc);
        for spot in outline.as_slice() {
            if let Some(raw) = line_at(text, *spot) {
                note(alloc, &mut drivers, raw)?;
            }
        }
        Ok(SetNames::Given(drivers))
    }

    /// The names in the driver of a number.
    pub fn in_driver(&self, driver: u8) -> Names<'_, 'a> {
        match self {
            SetNames::Given(drivers) => Names::Given(drivers.get(driver as usize)),
            SetNames::Listed => Names::Listed,
        }
    }
}

/// Notes what a line of an outline names.
fn note<'a>(
    alloc: Global,
    drivers: &mut Vec<DriverNames<'a>>,
    raw: &'a [u8],
) -> Result<(), AllocError> {
    let Ok(line) = read_line(raw) else {
        return Ok(());
    };
    match line.body {
        Body::OpenDriver(driver) => drivers.push(DriverNames {
            driver,
            routines: Vec::new(alloc),
            queues: Vec::new(alloc),
        })?,
        Body::OpenRoutine(routine, _) => {
            if let Some(names) = drivers.last_mut() {
                names.routines.push(routine)?;
            }
        }
        Body::AddQueue(queue, _, _) => {
            if let Some(names) = drivers.last_mut() {
                names.queues.push(queue)?;
            }
        }
        _ => {}
    }
    Ok(())
}

/// What a driver and the things in it are called.
#[derive(Clone, Copy)]
pub enum Names<'n, 'a> {
    /// As a text names them, if it has the driver.
    Given(Option<&'n DriverNames<'a>>),
    /// By a letter and their numbers.
    Listed,
}

impl<'n, 'a> Names<'n, 'a> {
    /// Adds the name of the driver, which has this number.
    pub fn add_driver(self, words: &mut Words, number: u8) {
        let name = match self {
            Names::Given(Some(names)) => Some(&names.driver),
            _ => None,
        };
        words.add("driver ");
        add_name(words, name, self.letter("d"), number)
    }

    /// Adds the name of a queue, or that it is the device queue.
    pub fn add_queue(self, words: &mut Words, name: QueueName) {
        match name {
            QueueName::Declared(number) => {
                words.add("queue ");
                add_name(words, self.queue(number), self.letter("q"), number)
            }
            QueueName::DeviceQueue => words.add("the device queue"),
        }
    }

    /// Adds the name of a queue as an instruction has it.
    pub fn add_queue_alone(self, words: &mut Words, name: QueueName) {
        match name {
            QueueName::Declared(number) => add_name(words, self.queue(number), "q", number),
            QueueName::DeviceQueue => words.add("the device queue"),
        }
    }

    /// Adds the name of a routine.
    pub fn add_routine(self, words: &mut Words, number: u8) {
        words.add("routine ");
        add_name(words, self.routine(number), self.letter("f"), number)
    }

    /// Adds the name of a routine without saying that it is one.
    pub fn add_routine_alone(self, words: &mut Words, number: u8) {
        let before = match self {
            Names::Given(_) => "routine ",
            Names::Listed => "f",
        };
        add_name(words, self.routine(number), before, number)
    }

    /// The letter before the number of a thing, where a listing has it.
    fn letter(self, letter: &'static str) -> &'static str {
        match self {
            Names::Given(_) => "",
            Names::Listed => letter,
        }
    }

    /// The name of the queue of a number, if a text has one.
    fn queue(self, number: u8) -> Option<&'n Piece<'a>> {
        match self {
            Names::Given(Some(names)) => names.queues.get(number as usize),
            _ => None,
        }
    }

    /// The name of the routine of a number, if a text has one.
    fn routine(self, number: u8) -> Option<&'n Piece<'a>> {
        match self {
            Names::Given(Some(names)) => names.routines.get(number as usize),
            _ => None,
        }
    }
}

/// Adds a name, or the number of what has none, with words before that.
fn add_name(words: &mut Words, name: Option<&Piece<'_>>, before: &str, number: u8) {
    match name {
        Some(name) => {
            let done = add_bytes(&mut words.text, name.bytes());
            words.note(done)
        }
        None => {
            words.add(before);
            words.add_number(number as u64)
        }
    }
}
