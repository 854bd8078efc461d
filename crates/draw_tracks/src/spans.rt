//! The spans of a thread: one for each of its frames.

use crate::mark::{Kind, Mark, Marks};
use checked::Checked;
use model::view::FrameView;
use std::alloc::{AllocError, Global};
use tell_names::{Book, add_packet};
use tell_uses::standing::frames_on;
use words::Words;

/// A span that goes on.
#[derive(Clone, Copy)]
struct Span {
    frame: FrameView,
    /// Its number among all spans.
    number: u64,
}

/// The spans of a thread that go on, the lowest first.
#[derive(Drop)]
pub(crate) struct Spans {
    thread: u8,
    open: Vec<Span>,
}

impl Spans {
    /// Those of an idle thread.
    pub(crate) fn of(alloc: Global, thread: u8) -> Spans {
        Spans {
            thread,
            open: Vec::new(alloc),
        }
    }

    /// The number of the top one.
    pub(crate) fn top(&self) -> Option<u64> {
        Some(self.open.last()?.number)
    }

    /// Ends those whose frames the thread has no more, and begins those of frames that are new. The
    /// answer is the number of the next span that begins.
    pub(crate) fn follow(
        &mut self,
        marks: &mut Marks,
        book: &Book<'_>,
        machine: &Checked,
        at: u64,
        next: u64,
    ) -> Result<u64, AllocError> {
        let frames = frames_on(machine, self.thread as usize);
        let kept = self.kept(machine);
        self.end_down_to(marks, kept, at)?;
        let mut number = next;
        for place in kept..frames.len() {
            if let Some(frame) = frames.get(place) {
                self.begin(marks, book, frame.view(), at, number)?;
                number = number.saturating_add(1);
            }
        }
        Ok(number)
    }

    /// Ends all of them.
    pub(crate) fn end_all(&mut self, marks: &mut Marks, at: u64) -> Result<(), AllocError> {
        self.end_down_to(marks, 0, at)
    }

    /// How many from the lowest on have the frames that the thread has.
    fn kept(&self, machine: &Checked) -> usize {
        let frames = frames_on(machine, self.thread as usize);
        let pairs = self.open.iter().zip(frames.iter());
        pairs
            .take_while(|(span, frame)| is_same(span.frame, frame.view()))
            .count()
    }

    /// Ends the top ones, so that so many are left.
    fn end_down_to(&mut self, marks: &mut Marks, left: usize, at: u64) -> Result<(), AllocError> {
        for _span in left..self.open.len() {
            let _ended = self.open.pop();
            marks.add(Mark {
                kind: Kind::Ends,
                name: "",
                at,
                track: track_of(self.thread),
            })?;
        }
        Ok(())
    }

    /// Begins one.
    fn begin(
        &mut self,
        marks: &mut Marks,
        book: &Book<'_>,
        frame: FrameView,
        at: u64,
        number: u64,
    ) -> Result<(), AllocError> {
        let name = name_of(marks.alloc(), book, frame)?;
        marks.add(Mark {
            kind: Kind::Begins,
            name: name.as_str(),
            at,
            track: track_of(self.thread),
        })?;
        self.open.push(Span { frame, number })?;
        Ok(())
    }
}

/// The track of a thread.
pub(crate) fn track_of(thread: u8) -> u64 {
    u64::from(thread) + 1
}

/// Places below the track of a thread, for those of its locks.
pub(crate) const BELOW: u64 = 100;

/// Where the track of a thread stands among the others.
pub(crate) fn place_of(thread: u8) -> u64 {
    u64::from(thread).saturating_mul(BELOW)
}

/// What a frame is called.
fn name_of(alloc: Global, book: &Book<'_>, frame: FrameView) -> Result<String, AllocError> {
    let mut name = Words::new(alloc);
    add_name(&mut name, book, frame);
    name.finish()
}

/// Adds what a frame is called: its routine and its device, or what the I/O manager does.
fn add_name(name: &mut Words, book: &Book<'_>, frame: FrameView) {
    match frame {
        FrameView::Routine {
            driver,
            routine,
            device,
            position: _,
        } => {
            book.add_routine(name, driver, routine);
            name.add(" of ");
            book.add_device(name, device)
        }
        FrameView::Walk(packet) => {
            name.add("IoCompleteRequest of ");
            add_packet(name, packet, "")
        }
        FrameView::Cancel(cancel) => {
            name.add("IoCancelIrp of ");
            add_packet(name, cancel.packet, "")
        }
    }
}

/// Whether two frames are one, before and after an event.
fn is_same(before: FrameView, after: FrameView) -> bool {
    match (before, after) {
        (
            FrameView::Routine {
                driver,
                routine,
                device,
                position: _,
            },
            FrameView::Routine {
                driver: other_driver,
                routine: other_routine,
                device: other_device,
                position: _,
            },
        ) => driver == other_driver && routine == other_routine && device == other_device,
        (FrameView::Walk(packet), FrameView::Walk(other)) => packet == other,
        (FrameView::Cancel(cancel), FrameView::Cancel(other)) => cancel.packet == other.packet,
        (FrameView::Routine { .. }, FrameView::Walk(_) | FrameView::Cancel(_))
        | (FrameView::Walk(_), FrameView::Routine { .. } | FrameView::Cancel(_))
        | (FrameView::Cancel(_), FrameView::Routine { .. } | FrameView::Walk(_)) => false,
    }
}
