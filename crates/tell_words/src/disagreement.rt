//! What the audit says of uses of stack locations, in words.

use crate::line::Happened;
use checked::Checked;
use model::event::Event;
use model::view::{FrameView, PacketView};
use tell_changes::Moment;
use tell_names::{Book, add_number, status_name};
use tell_uses::acts::UseStep;
use tell_uses::uses::Note;
use words::Words;

/// A stack location: the device that is asked there, and its number; the first is the top driver's.
#[derive(Clone, Copy)]
pub(crate) struct Place {
    device: u8,
    number: u8,
}

/// The device of the routine that acts, before it does.
fn acting_device(moment: &Moment) -> Option<u8> {
    let Some(acting) = moment.acting else {
        return None;
    };
    match acting.frame {
        FrameView::Routine { device, .. } => Some(device),
        FrameView::Walk(_) | FrameView::Cancel(_) => None,
    }
}

/// The location that a routine's `call` made current: the one that is current after it.
fn called_place(n: u64, moment: &Moment, machine: &Checked) -> Option<Place> {
    let device = acting_device(moment)?;
    let device = machine.set().lower(device)?;
    match machine.packet(n) {
        PacketView::Live(packet) => Some(Place {
            device,
            number: packet.depth,
        }),
        PacketView::Never | PacketView::Topped => None,
    }
}

/// The location at which an event issued a packet.
fn issued_place(event: Event) -> Option<Place> {
    let Event::Issue { device, .. } = event else {
        return None;
    };
    Some(Place { device, number: 1 })
}

/// The location of which an event opened a use, if it is known.
pub(crate) fn opened_place(happened: &Happened, machine: &Checked) -> Option<Place> {
    match happened.step {
        UseStep::Issue(_) => issued_place(happened.event),
        UseStep::Call(n) => called_place(n, &happened.moment, machine),
        UseStep::Nothing | UseStep::Mark(_) | UseStep::Leave(_, _) | UseStep::Return(_) => None,
    }
}

/// Adds a location.
pub(crate) fn add_place(words: &mut Words, book: &Book<'_>, place: Place) {
    words.add(", location ");
    add_number(words, u64::from(place.number));
    words.add(" of ");
    book.add_device(words, place.device)
}

/// Adds what a use's note says that disagrees.
pub(crate) fn add_note(words: &mut Words, note: &Note) {
    if note.returned_pending && note.left_unmarked {
        words.add(": STATUS_PENDING was returned, and completion left it unmarked");
    }
    if let Some(status) = note.returned_other {
        if note.left_marked {
            words.add(": ");
            words.add(status_name(status));
            words.add(" was returned, and completion left it marked")
        }
    }
}
