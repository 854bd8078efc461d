//! Lines of queues, of StartIo routines and of devices, with a word of theirs changed.

use crate::label::add_bytes;
use crate::layout::{parts_of, with_word};
use crate::page::{Page, Thing, number_of};
use crate::texts::Making;
use crate::tracing::LineEdit;
use crate::{inserted, replaced};
use asm_line::{Body, read_line};
use driver_set::QueueName;
use mend_changes::edit::{Change, Edit};
use model::abs::Rule;
use std::alloc::{AllocError, Global};
use words::Words;

/// A line that is changed, or put in before another one.
#[derive(Drop)]
struct Changed {
    /// The index of the line.
    index: usize,
    /// Whether it is put in before that.
    is_new: bool,
    words: String,
}

impl Changed {
    /// Changes one more word.
    fn change(&mut self, alloc: Global, index: usize, word: &str) -> Result<(), AllocError> {
        self.words = with_word(alloc, self.words.as_bytes(), index, word)?;
        Ok(())
    }
}

/// A word of a line.
#[derive(Clone, Copy)]
struct Spot {
    index: usize,
    word: usize,
    is_new: bool,
}

/// Adds the changes that edits make of such lines, with a sentence for each line.
pub(crate) fn render_lines(page: &Page<'_>, edits: &[LineEdit], making: &mut Making) {
    if let Some(first) = edits.first() {
        for changed in changed_by(page, edits, making).iter() {
            tell(page, changed, first, making);
        }
    }
}

/// The lines that edits change, each as all of them make it.
fn changed_by(page: &Page<'_>, edits: &[LineEdit], making: &mut Making) -> Vec<Changed> {
    let mut all: Vec<Changed> = Vec::new(making.alloc);
    for line in edits {
        let done = change_by(making.alloc, page, &mut all, &line.edit);
        making.note(done);
    }
    all
}

/// Changes the word of a line that an edit is about.
fn change_by(
    alloc: Global,
    page: &Page<'_>,
    all: &mut Vec<Changed>,
    edit: &Edit,
) -> Result<(), AllocError> {
    match spot_of(page, edit) {
        Some(spot) => {
            let word = word_of(alloc, page, edit)?;
            change(alloc, page, all, &spot, word.as_str())
        }
        None => Ok(()),
    }
}

/// Changes a word of a line, which may have been changed already.
fn change(
    alloc: Global,
    page: &Page<'_>,
    all: &mut Vec<Changed>,
    spot: &Spot,
    word: &str,
) -> Result<(), AllocError> {
    for changed in all.iter_mut() {
        if changed.index == spot.index && changed.is_new == spot.is_new {
            return changed.change(alloc, spot.word, word);
        }
    }
    all.push(changed_at(alloc, page, spot, word)?)?;
    Ok(())
}

/// A line with its first change.
fn changed_at(
    alloc: Global,
    page: &Page<'_>,
    spot: &Spot,
    word: &str,
) -> Result<Changed, AllocError> {
    let raw = if spot.is_new {
        b"startio".as_slice()
    } else {
        page.line(spot.index)
    };
    Ok(Changed {
        index: spot.index,
        is_new: spot.is_new,
        words: with_word(alloc, raw, spot.word, word)?,
    })
}

/// Adds a changed line, and a sentence on it.
fn tell(page: &Page<'_>, changed: &Changed, why: &LineEdit, making: &mut Making) {
    let alloc = making.alloc;
    if changed.is_new {
        making.tell(inserted_words(alloc, changed, why.rule));
        making.insert_copy(changed.index, changed.words.as_bytes())
    } else {
        let old = parts_of(page.line(changed.index)).body;
        let new = parts_of(changed.words.as_bytes()).body;
        let number = number_of(changed.index);
        making.delete(changed.index);
        making.tell(replaced(alloc, number, old, new, why.rule));
        making.insert_copy(changed.index.saturating_add(1), changed.words.as_bytes())
    }
}

/// That a line is put in.
fn inserted_words(alloc: Global, changed: &Changed, rule: Rule) -> Result<String, AllocError> {
    let mut words = Vec::new(alloc);
    words.push(String::from_str(alloc, changed.words.as_str())?)?;
    inserted(alloc, words.as_slice(), number_of(changed.index), rule)
}

/// Which word of which line an edit changes.
fn spot_of(page: &Page<'_>, edit: &Edit) -> Option<Spot> {
    let (thing, word) = match edit.change {
        Change::Guard(queue, _) => (Thing::Queue(edit.driver, queue), 2),
        Change::Cancel(QueueName::Declared(queue), _) => (Thing::Queue(edit.driver, queue), 3),
        Change::Cancel(QueueName::DeviceQueue, _) => return startio_spot(page, edit.driver, 2),
        Change::StartIo(_) => return startio_spot(page, edit.driver, 1),
        Change::Stack(device, _) => (Thing::Device(device), 3),
        Change::Lower(device, _) => (Thing::Device(device), 4),
        Change::Insert(..) | Change::Delete | Change::Replace(_) | Change::Move(..) => return None,
    };
    Some(Spot {
        index: page.line_of(thing)?,
        word,
        is_new: false,
    })
}

/// A word of the line of a driver's StartIo routine, which may not be there yet.
fn startio_spot(page: &Page<'_>, driver: u8, word: usize) -> Option<Spot> {
    let first = page.line_of(Thing::Driver(driver))?;
    let routines = page.line_of(Thing::Routine(driver, 0))?;
    for index in first..routines {
        if is_startio(page.line(index)) {
            return Some(Spot {
                index,
                word,
                is_new: false,
            });
        }
    }
    Some(Spot {
        index: routines,
        word,
        is_new: true,
    })
}

/// Whether a line names a StartIo routine.
fn is_startio(raw: &[u8]) -> bool {
    match read_line(raw) {
        Ok(line) => matches!(line.body, Body::HandleStartIo(..)),
        Err(_) => false,
    }
}

/// The word that an edit puts there.
fn word_of(alloc: Global, page: &Page<'_>, edit: &Edit) -> Result<String, AllocError> {
    let mut word = Words::new(alloc);
    match edit.change {
        Change::Guard(_, lock) => {
            word.add("l");
            word.add_number(lock.index() as u64)
        }
        Change::Cancel(_, routine) | Change::StartIo(routine) => {
            let names = page.names.in_driver(edit.driver);
            names.add_routine_alone(&mut word, routine)
        }
        Change::Stack(_, stack) => word.add_number(stack as u64),
        Change::Lower(_, lower) => add_device(&mut word, page, lower),
        Change::Insert(..) | Change::Delete | Change::Replace(_) | Change::Move(..) => {}
    }
    word.finish()
}

/// Adds the name of the device of a number.
fn add_device(word: &mut Words, page: &Page<'_>, device: u8) {
    if let Some(index) = page.line_of(Thing::Device(device)) {
        if let Ok(line) = read_line(page.line(index)) {
            if let Body::AddDevice(name, _, _, _) = line.body {
                add_bytes(word, name.bytes())
            }
        }
    }
}
