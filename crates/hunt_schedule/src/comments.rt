//! What the lines of a schedule do, in words.

use checked::Checked;
use model::event::{Event, Reply};
use model::view::FrameView;
use tell_names::{Book, add_bug, add_packet, status_name};
use tell_uses::standing::thread_of;
use words::Words;

/// A run that is told: the machine that makes it, and the names of its set.
#[derive(Drop)]
pub(crate) struct Telling<'a> {
    pub(crate) machine: Checked,
    pub(crate) book: Book<'a>,
}

impl Telling<'_> {
    /// Makes the run go on by these events, which are those of one line, and adds what they do.
    pub(crate) fn add_line(&mut self, words: &mut Words, events: &[Event]) {
        for place in 0..events.len() {
            if let Some(event) = events.get(place) {
                self.add_before(words, event, place, events.len());
                let reply = self.machine.apply(event);
                self.add_reply(words, event, &reply);
            }
        }
    }

    /// Adds where the first event of a line, and the last one, begins.
    fn add_before(&self, words: &mut Words, event: &Event, place: usize, count: usize) {
        if place == 0 {
            self.add_start(words, event);
        } else if place.saturating_add(1) == count {
            words.add(" .. ");
            self.add_spot(words, event);
        }
    }

    /// Adds where the thread of a step stands before it.
    fn add_start(&self, words: &mut Words, event: &Event) {
        match *event {
            Event::Step { .. } => self.add_spot(words, event),
            Event::Interrupt { device } => {
                words.add("the DPC of ");
                self.book.add_device(words, device);
                words.add(" is queued");
            }
            Event::Cancel { packet, .. } => add_packet(words, packet, " is cancelled: "),
            Event::Issue { .. } | Event::Dpc { .. } | Event::StartIo { .. } => {}
        }
    }

    /// The frame on the top of the thread of an event.
    fn top_of(&self, event: &Event) -> Option<FrameView> {
        self.machine.thread(thread_of(event)?)?.top
    }

    /// Adds where the thread of an event stands.
    fn add_spot(&self, words: &mut Words, event: &Event) {
        if let Some(frame) = self.top_of(event) {
            self.add_frame(words, frame);
        }
    }

    /// Adds which routine begins on the thread of an event.
    fn add_root(&self, words: &mut Words, event: &Event) {
        if let Some(frame) = self.top_of(event) {
            self.book.add_spot(words, frame);
        }
    }

    /// Adds where a frame stands, with its instruction.
    fn add_frame(&self, words: &mut Words, frame: FrameView) {
        match self.book.line_at(frame) {
            Some(place) => words.add(self.book.words_of(place)),
            None => self.book.add_spot(words, frame),
        }
    }

    /// Adds what an event has come to, if it is more than a step.
    fn add_reply(&self, words: &mut Words, event: &Event, reply: &Reply) {
        match *reply {
            Reply::Started(packet) => {
                if let Event::Issue { .. } = *event {
                    add_packet(words, packet, ": ");
                }
                self.add_root(words, event);
            }
            Reply::Topped { packet, status, .. } => {
                words.add("; ");
                add_packet(words, packet, " tops out with ");
                words.add(status_name(status));
            }
            Reply::Waited => words.add("; it waits"),
            Reply::Bug(bug) => {
                words.add("; ");
                add_bug(words, &self.book, bug);
            }
            Reply::Wrong(_) => words.add("; an operand of a wrong kind"),
            Reply::Stepped | Reply::Finished | Reply::Idle | Reply::Refused => {}
        }
    }
}
