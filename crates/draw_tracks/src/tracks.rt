//! A run as tracks, while it goes.

use crate::bar::Bars;
use crate::lists::count_lists;
use crate::mark::{Kind, Mark, Marks};
use crate::spans::{Spans, place_of, track_of};
use checked::Checked;
use draw_lanes::lane::{Lane, Post, lanes_of};
use draw_lanes::row_words::{changed_words, place_words};
use draw_lanes::seen::{Seen, packet_of};
use draw_lanes::sign::{Sign, sign_of};
use model::event::{Event, Reply};
use model::view::FrameView;
use std::alloc::{AllocError, Global};
use tell_names::Book;
use tell_uses::standing::thread_of;

/// The first track of a device.
const FIRST_DEVICE: u64 = 1_000;

/// Where the tracks of devices stand: below those of threads.
const BELOW_THREADS: u64 = 1_000_000;

/// A run as tracks. Its memory grows with the events.
#[derive(Drop)]
pub struct Tracks {
    alloc: Global,
    marks: Marks,
    spans: Vec<Spans>,
    bars: Bars,
    lanes: Vec<Lane>,
    /// How many packets were counted in the list of each lane.
    counts: Vec<usize>,
    /// The last span of each packet, by the packets' numbers.
    flows: Vec<Option<u64>>,
    /// How many spans began.
    begun: u64,
    /// How many packets live.
    live: u64,
    /// How many events there were.
    events: u64,
}

impl Tracks {
    /// Those of a run without events, by the machine before the first one and the names of its set.
    ///
    /// # Errors
    ///
    /// When memory runs out.
    pub fn begin(alloc: Global, machine: &Checked, book: &Book<'_>) -> Result<Tracks, AllocError> {
        let lanes = lanes_of(alloc, machine, book)?;
        Tracks::of(alloc, machine.threads().len(), lanes)
    }

    /// Those over so many threads, with these lanes.
    fn of(alloc: Global, threads: usize, lanes: Vec<Lane>) -> Result<Tracks, AllocError> {
        let counts = vec![in alloc; 0; lanes.len()]?;
        let marks = named_tracks(alloc, lanes.as_slice())?;
        Ok(Tracks {
            alloc,
            marks,
            spans: spans_of(alloc, threads)?,
            bars: Bars::new(alloc),
            lanes,
            counts,
            flows: Vec::new(alloc),
            begun: 0,
            live: 0,
            events: 0,
        })
    }

    /// Adds the next event.
    ///
    /// # Errors
    ///
    /// When memory runs out.
    pub fn add_event(&mut self, book: &Book<'_>, seen: Seen<'_>) -> Result<(), AllocError> {
        let at = self.events;
        let behind = at.saturating_add(1);
        let acts = self.top_span(seen);
        self.add_instant(book, seen, at)?;
        self.follow_thread(book, seen, behind)?;
        if matches!(seen.reply, Reply::Started(_)) {
            self.flow(seen, self.top_span(seen), behind)?;
        } else {
            self.flow(seen, acts, at)?;
        }
        self.count_live(seen, behind)?;
        self.events = behind;
        match device_of(seen) {
            Some(device) => count_lists(
                &mut self.marks,
                seen.machine,
                self.lanes.as_slice(),
                self.counts.as_mut_slice(),
                device,
                behind,
            ),
            None => Ok(()),
        }
    }

    /// The whole text: what goes on ends behind the last event.
    ///
    /// # Errors
    ///
    /// When memory runs out.
    pub fn end(self) -> Result<Vec<u8>, AllocError> {
        let mut tracks = self;
        tracks.end_all()?;
        tracks.marks.end()
    }

    /// Ends what goes on.
    fn end_all(&mut self) -> Result<(), AllocError> {
        self.bars.end_all(&mut self.marks, self.events)?;
        for thread in self.spans.iter_mut() {
            thread.end_all(&mut self.marks, self.events)?;
        }
        Ok(())
    }

    /// The top span of the thread of an event.
    fn top_span(&self, seen: Seen<'_>) -> Option<u64> {
        let thread = thread_of(seen.event)?;
        self.spans.get(thread as usize)?.top()
    }

    /// Adds what happens in an event, where it is more than that a frame acts.
    fn add_instant(&mut self, book: &Book<'_>, seen: Seen<'_>, at: u64) -> Result<(), AllocError> {
        let Some(name) = name_of(sign_of(seen.event, seen.moment, seen.reply)) else {
            return Ok(());
        };
        let place = place_words(self.alloc, book, seen)?;
        let change = changed_words(self.alloc, book, seen)?;
        self.marks.add(Mark {
            kind: Kind::Happens {
                place: place.as_str(),
                change: change.as_str(),
            },
            name,
            at,
            track: track_for(seen.event),
        })
    }

    /// Follows the frames of the thread of an event, and the lock that its step is about.
    fn follow_thread(
        &mut self,
        book: &Book<'_>,
        seen: Seen<'_>,
        at: u64,
    ) -> Result<(), AllocError> {
        let Some(thread) = thread_of(seen.event) else {
            return Ok(());
        };
        self.bars.follow(&mut self.marks, book, seen, thread, at)?;
        if let Some(spans) = self.spans.get_mut(thread as usize) {
            self.begun = spans.follow(&mut self.marks, book, seen.machine, at, self.begun)?;
        }
        Ok(())
    }

    /// The flow of the packet that an event is about goes to a span, unless it is there, and ends
    /// where the packet tops out.
    fn flow(&mut self, seen: Seen<'_>, span: Option<u64>, at: u64) -> Result<(), AllocError> {
        let (Some(packet), Some(thread)) = (packet_about(seen), thread_of(seen.event)) else {
            return Ok(());
        };
        if packet == self.flows.len() as u64 {
            self.flows.push(None)?;
        }
        let Ok(place) = usize::try_from(packet) else {
            return Ok(());
        };
        let Some(last) = self.flows.get_mut(place) else {
            return Ok(());
        };
        let topped = matches!(seen.reply, Reply::Topped { .. });
        let kind = match *last {
            _ if topped => Kind::Arrives(packet),
            None => Kind::Leaves(packet),
            Some(_) if *last != span => Kind::Goes(packet),
            Some(_) => return Ok(()),
        };
        *last = span;
        self.marks.add(Mark {
            kind,
            name: "packet",
            at,
            track: track_of(thread),
        })
    }

    /// Counts the packets that live, where an event issues one or one tops out.
    fn count_live(&mut self, seen: Seen<'_>, at: u64) -> Result<(), AllocError> {
        let issues = matches!(seen.event, Event::Issue { .. });
        self.live = match *seen.reply {
            Reply::Started(_) if issues => self.live.saturating_add(1),
            Reply::Topped { .. } => self.live.saturating_sub(1),
            Reply::Started(_)
            | Reply::Stepped
            | Reply::Finished
            | Reply::Waited
            | Reply::Idle
            | Reply::Refused
            | Reply::Bug(_)
            | Reply::Wrong(_) => return Ok(()),
        };
        self.marks.add(Mark {
            kind: Kind::Counts(self.live),
            name: "live packets",
            at,
            track: 0,
        })
    }
}

/// The spans of so many threads.
fn spans_of(alloc: Global, threads: usize) -> Result<Vec<Spans>, AllocError> {
    let mut spans = Vec::new(alloc);
    for thread in 0..threads.min(255) as u8 {
        spans.push(Spans::of(alloc, thread))?;
    }
    Ok(spans)
}

/// The text of trace events, with the names of the tracks.
fn named_tracks(alloc: Global, lanes: &[Lane]) -> Result<Marks, AllocError> {
    let mut marks = Marks::begin(alloc)?;
    name_tracks(&mut marks, lanes)?;
    Ok(marks)
}

/// Names the tracks of threads and of devices, and puts them in order.
fn name_tracks(marks: &mut Marks, lanes: &[Lane]) -> Result<(), AllocError> {
    for lane in lanes {
        let (track, place) = match lane.post {
            Post::Thread(thread) => (track_of(thread), place_of(thread)),
            Post::Device(device) => (track_of_device(device), u64::from(device) + BELOW_THREADS),
            _ => continue,
        };
        marks.add(Mark::called(track, lane.name.as_str()))?;
        marks.add(Mark::stands(track, place))?;
    }
    Ok(())
}

/// The track of a device.
fn track_of_device(device: u8) -> u64 {
    u64::from(device) + FIRST_DEVICE
}

/// The track on which an event happens.
fn track_for(event: &Event) -> u64 {
    match *event {
        Event::Issue { thread, .. }
        | Event::Cancel { thread, .. }
        | Event::Dpc { thread, .. }
        | Event::StartIo { thread, .. }
        | Event::Step { thread } => track_of(thread),
        Event::Interrupt { device } => track_of_device(device),
    }
}

/// The packet that an event is about: that which it issues, or that of a frame.
fn packet_about(seen: Seen<'_>) -> Option<u64> {
    if let Reply::Started(packet) = *seen.reply {
        return Some(packet);
    }
    packet_of(seen)
}

/// The device whose lists an event may change.
fn device_of(seen: Seen<'_>) -> Option<u8> {
    if let Some(acting) = &seen.moment.acting {
        return match acting.frame {
            FrameView::Routine { device, .. } => Some(device),
            FrameView::Walk(_) | FrameView::Cancel(_) => None,
        };
    }
    if let Event::StartIo { device, .. } = *seen.event {
        return Some(device);
    }
    None
}

/// What an instant is called, by the sign of its event.
fn name_of(sign: Sign) -> Option<&'static str> {
    match sign {
        Sign::Acts => None,
        Sign::Mark => Some("marked pending"),
        Sign::Complete => Some("completed"),
        Sign::TopsOut => Some("tops out"),
        Sign::Cancel => Some("cancel"),
        Sign::Flag => Some("cancel flag set"),
        Sign::Arm => Some("cancel routine set"),
        Sign::Disarm => Some("cancel routine cleared"),
        Sign::Acquire => Some("acquires"),
        Sign::Release => Some("releases"),
        Sign::Interrupt => Some("interrupt"),
        Sign::Refused => Some("refused"),
        Sign::Stop => Some("stops the run"),
    }
}
