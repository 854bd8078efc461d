//! The words of an event.

use crate::columns::add_columns;
use checked::Checked;
use model::event::{Event, Reply};
use model::view::{FrameView, PacketView};
use model::world::{CancelStep, Canceller};
use std::alloc::AllocError;
use tell_changes::Moment;
use tell_names::{Book, blank, blanks_before_change};
use tell_uses::acts::UseStep;
use words::Words;

/// An event that has happened: what it was before, what it did to uses of stack locations, and the
/// reply to it.
#[derive(Clone, Copy)]
pub struct Happened {
    pub event: Event,
    pub moment: Moment,
    pub step: UseStep,
    pub reply: Reply,
}

/// Adds the columns of an event behind so many blanks.
pub(crate) fn add_front(
    front: &mut Vec<u8>,
    blanks: usize,
    event: &Event,
    machine: &Checked,
) -> Result<(), AllocError> {
    front.extend_from_slice(blank(blanks).as_bytes())?;
    add_columns(front, machine, event)?;
    front.extend_from_slice(b"  ")?;
    Ok(())
}

/// Adds the place of an event, and behind it what the event changed, if these words say anything,
/// by the machine after it.
pub(crate) fn add_rest(
    words: &mut Words,
    book: &Book<'_>,
    happened: &Happened,
    machine: &Checked,
    change: &str,
) {
    match happened.moment.acting {
        Some(acting) => add_place(words, book, acting.frame, machine),
        None => words.add("-"),
    }
    if !change.is_empty() {
        let place = words.text.len();
        words.add(blanks_before_change(place));
        words.add(change)
    }
}

/// Adds where a frame that acts stands: the routine and the line of its instruction, or what the
/// I/O manager does, by the machine after that.
pub(crate) fn add_place(words: &mut Words, book: &Book<'_>, frame: FrameView, machine: &Checked) {
    match frame {
        FrameView::Routine {
            driver,
            routine,
            position,
            device: _,
        } => book.add_place(words, driver, routine, position),
        FrameView::Walk(_) => words.add("IoCompleteRequest"),
        FrameView::Cancel(canceller) => words.add(step_words(canceller, machine)),
    }
}

/// What IoCancelIrp does in a step. Once it owns the system cancel spin lock, it only releases that
/// if the packet has topped out; no such step makes a packet top out.
fn step_words(canceller: Canceller, machine: &Checked) -> &'static str {
    let topped = matches!(machine.packet(canceller.packet), PacketView::Topped);
    match (canceller.next, topped) {
        (CancelStep::Acquire, _) => "IoCancelIrp: acquires",
        (CancelStep::SetFlag | CancelStep::Exchange, true) => "IoCancelIrp: releases",
        (CancelStep::SetFlag, false) => "IoCancelIrp: sets the flag",
        (CancelStep::Exchange, false) => "IoCancelIrp: takes the routine",
    }
}
