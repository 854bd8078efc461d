//! What a run tells of uses of stack locations, in the key of its world: worlds that differ there
//! may differ in whether a status that is returned later disagrees with its mark.

use crate::writer::Writer;
use checked::Checked;
use checked_parts::Shared;
use std::alloc::AllocError;
use tell_uses::ledger::Ledger;
use tell_uses::uses::{LocationUse, Note};

/// Adds the uses of stack locations to a key that was written for the world of a machine, by the
/// ledger of its run: those that are open, and those that frames serve.
///
/// # Errors
///
/// When memory runs out.
pub fn add_uses(writer: &mut Writer, machine: &Checked, ledger: &Ledger) -> Result<(), AllocError> {
    for name in 0..writer.packets_met() {
        let packet = writer.packet_named(name);
        add_open(writer, ledger.notes(), packet);
    }
    for place in 0..writer.threads() {
        let thread = writer.thread(place);
        add_served(writer, machine, ledger, thread);
    }
    writer.finish()
}

/// Whether completion hasn't left a use.
fn is_open(note: &Note) -> bool {
    !note.left_marked && !note.left_unmarked
}

/// Adds what is known of the open uses of a packet's locations, the highest first.
fn add_open(writer: &mut Writer, notes: &[Note], packet: u64) {
    for note in notes {
        if note.packet == packet && is_open(note) {
            writer.numbers(&[
                1,
                u64::from(note.marked),
                u64::from(note.returned_pending),
                u64::from(note.returned_other.is_some()),
            ]);
        }
    }
    writer.number(0);
}

/// Adds what the frames of a thread serve.
fn add_served(writer: &mut Writer, machine: &Checked, ledger: &Ledger, thread: u8) {
    let Some(its) = machine.threads().get(thread as usize) else {
        return;
    };
    for place in 0..its.frames().len() {
        match ledger.served_at(thread, place) {
            Some(served) => add_use(writer, machine.shared(), ledger.notes(), served),
            None => writer.number(0),
        }
    }
}

/// Adds a use that a frame serves: which one it is while it is open, and then how completion left
/// it.
fn add_use(writer: &mut Writer, shared: &Shared, notes: &[Note], served: LocationUse) {
    let number = served.number() as usize;
    let Some(note) = notes.get(number) else {
        return;
    };
    if !is_open(note) {
        writer.numbers(&[
            2,
            u64::from(note.left_marked),
            u64::from(note.left_unmarked),
        ]);
        return;
    }
    writer.number(1);
    writer.packet(shared, note.packet);
    writer.number(open_before(notes, note.packet, number) as u64);
}

/// How many of the open uses of a packet's locations were opened before the one of a number.
fn open_before(notes: &[Note], packet: u64, number: usize) -> usize {
    let mut open: usize = 0;
    for note in notes.iter().take(number) {
        if note.packet == packet && is_open(note) {
            open = open.saturating_add(1);
        }
    }
    open
}
