//! The locks of a picture.

use checked::Checked;
use model::event::{Lock, OfDevice};
use model::view::FrameView;
use std::alloc::{AllocError, Global};
use tell_names::{Book, add_number, lock_named};
use tell_uses::acting::Acting;
use words::Words;

/// Letters of a device's name in that of a lock, at most, and so many of a longer one.
const LONG: usize = 12;

const CUT: usize = 10;

/// A lock that was owned, and what it is called beside a bar.
#[derive(Drop)]
pub struct NamedLock {
    pub lock: Lock,
    pub name: String,
}

impl NamedLock {
    /// A lock with its name.
    ///
    /// # Errors
    ///
    /// When memory runs out.
    pub fn of(alloc: Global, book: &Book<'_>, lock: Lock) -> Result<NamedLock, AllocError> {
        let mut name = Words::new(alloc);
        add_lock(alloc, &mut name, book, lock);
        Ok(NamedLock {
            lock,
            name: name.finish()?,
        })
    }
}

/// Adds what a lock is called.
fn add_lock(alloc: Global, words: &mut Words, book: &Book<'_>, lock: Lock) {
    match lock {
        Lock::SystemCancel => words.add("cancel lock"),
        Lock::Spin(OfDevice { device, number }) => {
            add_device(alloc, words, book, device);
            words.add(".l");
            add_number(words, u64::from(number))
        }
    }
}

/// Adds the name of a device, a long one cut.
fn add_device(alloc: Global, words: &mut Words, book: &Book<'_>, device: u8) {
    let mut name = Words::new(alloc);
    book.add_device(&mut name, device);
    match name.finish() {
        Ok(name) => add_cut(words, name.as_str()),
        Err(_) => words.lacks = true,
    }
}

/// Adds a name, a long one cut.
fn add_cut(words: &mut Words, name: &str) {
    match name.get(..CUT) {
        Some(start) if name.len() > LONG => {
            words.add(start);
            words.add("..")
        }
        _ => words.add(name),
    }
}

/// The lock that a step of a frame acquires or releases, if it does.
pub fn lock_of(acting: &Acting) -> Option<Lock> {
    let instruction = acting.instruction;
    match acting.frame {
        FrameView::Walk(_) => None,
        FrameView::Cancel(_) => Some(Lock::SystemCancel),
        FrameView::Routine { device, .. } => match instruction {
            Some(instr) => lock_named(&instr, device),
            None => None,
        },
    }
}

/// Whether a thread owns a lock.
pub fn owns(machine: &Checked, thread: u8, lock: Lock) -> bool {
    matches!(machine.shared().owner(lock), Some(Some(owner)) if owner == thread)
}
