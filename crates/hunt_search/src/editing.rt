//! Runs from which something is taken away.

use model::event::Event;
use std::alloc::{AllocError, Global};
use tell_uses::standing::thread_of;

/// Adds the events from one place up to another.
fn add_range(
    to: &mut Vec<Event>,
    events: &[Event],
    from: usize,
    end: usize,
) -> Result<(), AllocError> {
    for place in from..end {
        if let Some(event) = events.get(place) {
            to.push(*event)?;
        }
    }
    Ok(())
}

/// Events without so many at a place.
pub(crate) fn without(
    alloc: Global,
    events: &[Event],
    place: usize,
    count: usize,
) -> Result<Vec<Event>, AllocError> {
    let mut rest = Vec::new(alloc);
    add_range(&mut rest, events, 0, place)?;
    add_range(&mut rest, events, place.saturating_add(count), events.len())?;
    Ok(rest)
}

/// A root that goes from a run.
#[derive(Clone, Copy)]
struct Gone {
    thread: u8,
    /// The number of the packet that it issued.
    packet: Option<u64>,
    /// No other root has begun on its thread yet.
    is_inside: bool,
}

impl Gone {
    /// What is left of a later event. Packets that are issued later have other numbers.
    fn left_of(&mut self, event: Event) -> Option<Event> {
        if thread_of(&event) == Some(self.thread) {
            self.is_inside = self.is_inside && matches!(event, Event::Step { .. });
            if self.is_inside {
                return None;
            }
        }
        match self.packet {
            Some(gone) => renumbered(event, gone),
            None => Some(event),
        }
    }
}

/// An event without a packet: none if it is about that one.
fn renumbered(event: Event, gone: u64) -> Option<Event> {
    let Event::Cancel {
        thread,
        packet,
        level,
    } = event
    else {
        return Some(event);
    };
    if packet == gone {
        return None;
    }
    Some(Event::Cancel {
        thread,
        packet: if packet > gone { packet - 1 } else { packet },
        level,
    })
}

/// Events without the root at a place and its steps: none where no root stands there.
pub(crate) fn without_root(
    alloc: Global,
    events: &[Event],
    place: usize,
) -> Result<Vec<Event>, AllocError> {
    let mut rest = Vec::new(alloc);
    let Some(mut gone) = root_at(events, place) else {
        return Ok(rest);
    };
    add_range(&mut rest, events, 0, place)?;
    for event in events.iter().skip(place.saturating_add(1)) {
        if let Some(left) = gone.left_of(*event) {
            rest.push(left)?;
        }
    }
    Ok(rest)
}

/// The root at a place, if one stands there.
fn root_at(events: &[Event], place: usize) -> Option<Gone> {
    let root = *events.get(place)?;
    let packet = match root {
        Event::Step { .. } | Event::Interrupt { .. } => return None,
        Event::Issue { .. } => Some(issued_before(events, place)),
        Event::Cancel { .. } | Event::Dpc { .. } | Event::StartIo { .. } => None,
    };
    Some(Gone {
        thread: thread_of(&root)?,
        packet,
        is_inside: true,
    })
}

/// How many packets are issued before a place.
fn issued_before(events: &[Event], place: usize) -> u64 {
    let mut issued: u64 = 0;
    for event in events.iter().take(place) {
        if matches!(event, Event::Issue { .. }) {
            issued = issued.saturating_add(1);
        }
    }
    issued
}

/// How long a run is, and how easily it is read.
#[derive(Clone, Copy)]
pub(crate) struct Size {
    events: usize,
    /// The sum of the arguments.
    arguments: u64,
}

impl Size {
    /// That of a run.
    pub(crate) fn of(events: &[Event]) -> Size {
        let mut arguments: u64 = 0;
        for event in events {
            if let Event::Issue { argument, .. } = event {
                arguments = arguments.saturating_add(*argument);
            }
        }
        Size {
            events: events.len(),
            arguments,
        }
    }

    /// Whether it is less than another one: in events, or else in arguments.
    pub(crate) fn is_below(self, other: Size) -> bool {
        if self.events == other.events {
            self.arguments < other.arguments
        } else {
            self.events < other.events
        }
    }
}
