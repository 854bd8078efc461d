//! A run as it is drawn: rows, and what goes on in the lanes from row to row.

use crate::fold::{Tail, repeated};
use crate::hold::{Hold, Stay, stay_of};
use crate::interest::is_of_interest;
use crate::lane::{Lane, Post, Span, State, lanes_of};
use crate::lock::{NamedLock, lock_of, owns};
use crate::row::{Row, Spot};
use crate::row_words::{add_words, place_words};
use crate::seen::{Seen, is_return, packet_of};
use crate::sign::{Sign, sign_of};
use checked::Checked;
use model::event::{Event, Lock, Reply};
use model::view::FrameView;
use std::alloc::{AllocError, Global};
use tell_holders::Rights;
use tell_names::{Book, add_packet};
use tell_uses::acting::Acting;
use tell_uses::standing::thread_of;
use words::Words;

/// Rows that are drawn, at most. The last of them is kept for what stops the run.
pub const MOST_ROWS: usize = 500;

/// Events of which a row is made, at most, with those that repeat the rows before them.
const MOST_MADE: u64 = 20_000;

/// Where a packet's line is, and what holds the packet.
#[derive(Clone, Copy)]
pub struct Stand {
    pub lane: usize,
    pub track: usize,
    pub hold: Hold,
}

/// In a row a packet's line goes somewhere, or ends where the packet tops out.
#[derive(Clone, Copy)]
pub struct Move {
    pub packet: usize,
    pub row: usize,
    pub to: Option<Stand>,
}

/// A run that is drawn while it goes. Its memory is bounded by what is drawn.
#[derive(Drop)]
pub struct Drawing {
    pub alloc: Global,
    pub threads: usize,
    pub lanes: Vec<Lane>,
    pub rows: Vec<Row>,
    pub moves: Vec<Move>,
    pub spans: Vec<Span>,
    /// The locks that were owned.
    pub locks: Vec<NamedLock>,
    /// Who holds packets by right, where the set is accepted.
    rights: Option<Rights>,
    /// Where the lines of packets are, by the packets' numbers.
    stands: Vec<Option<Stand>>,
    /// Which threads wait.
    waiting: Vec<bool>,
    /// How many events there were.
    pub events: u64,
    /// How many rows were made.
    made: u64,
    /// How many events are folded behind the last row.
    pub folded: u64,
    /// Behind which row there was no room, if there was none.
    gap: Option<usize>,
    /// How many events would have been drawn, had there been room.
    pub left_out: u64,
}

impl Drawing {
    /// That of a run without events, by the machine before the first one and the names of its set.
    ///
    /// # Errors
    ///
    /// When memory runs out.
    pub fn begin(alloc: Global, machine: &Checked, book: &Book<'_>) -> Result<Drawing, AllocError> {
        let threads = machine.threads().len();
        Ok(Drawing {
            alloc,
            threads,
            lanes: lanes_of(alloc, machine, book)?,
            rows: Vec::new(alloc),
            moves: Vec::new(alloc),
            spans: Vec::new(alloc),
            locks: Vec::new(alloc),
            rights: Rights::of(alloc, machine.set())?,
            stands: Vec::new(alloc),
            waiting: vec![in alloc; false; threads]?,
            events: 0,
            made: 0,
            folded: 0,
            gap: None,
            left_out: 0,
        })
    }

    /// Adds the event of a number.
    ///
    /// # Errors
    ///
    /// When memory runs out.
    pub fn add_event(
        &mut self,
        book: &Book<'_>,
        number: u64,
        seen: Seen<'_>,
    ) -> Result<(), AllocError> {
        self.events = self.events.saturating_add(1);
        let waited = self.note_wait(seen.event, seen.reply);
        if !is_of_interest(seen.moment, seen.reply, waited, seen.top) {
            self.folded = self.folded.saturating_add(1);
            return Ok(());
        }
        if !self.has_room(seen.reply) {
            self.leave_out();
            return Ok(());
        }
        let about = packet_of(seen);
        let stood = self.stand_of(about);
        if self.gap.is_none() {
            self.follow(seen)?;
            self.note_states(book, seen)?;
        }
        let stands = match self.stand_of(about) {
            Some(stand) => Some(stand),
            None => stood,
        };
        self.add_row(book, number, seen, stands)?;
        self.fold_rows()
    }

    /// Whether a row stands behind the events that there was no room for: that of what stops the
    /// run.
    pub fn is_behind_gap(&self, row: usize) -> bool {
        self.gap == Some(row)
    }

    /// How many events have a row of their own.
    pub fn drawn(&self) -> usize {
        self.rows.iter().filter(|row| row.repeat.is_none()).count()
    }

    /// Whether an event of interest is drawn: as long as there is room, and what stops the run in
    /// any case.
    fn has_room(&self, reply: &Reply) -> bool {
        let stops = matches!(*reply, Reply::Bug(_) | Reply::Wrong(_));
        let room = self.rows.len() < MOST_ROWS - 1 && self.made < MOST_MADE;
        self.rows.len() < MOST_ROWS && (stops || self.gap.is_none() && room)
    }

    /// Notes an event of interest that there is no room for.
    fn leave_out(&mut self) {
        if self.gap.is_none() {
            self.gap = Some(self.rows.len());
        }
        self.folded = self.folded.saturating_add(1);
        self.left_out = self.left_out.saturating_add(1);
    }

    /// Notes whether the thread of an event waits after it, and answers whether it waited before.
    fn note_wait(&mut self, event: &Event, reply: &Reply) -> bool {
        let Some(thread) = thread_of(event) else {
            return false;
        };
        match self.waiting.get_mut(thread as usize) {
            Some(waits) => {
                let waited = *waits;
                *waits = matches!(*reply, Reply::Waited);
                waited
            }
            None => false,
        }
    }

    /// Adds the row of an event, with its sign on a packet's line if that belongs there.
    fn add_row(
        &mut self,
        book: &Book<'_>,
        number: u64,
        seen: Seen<'_>,
        stand: Option<Stand>,
    ) -> Result<(), AllocError> {
        let row = self.row_of(book, number, seen, stand)?;
        self.rows.push(row)?;
        self.made = self.made.saturating_add(1);
        self.folded = 0;
        Ok(())
    }

    /// The row of an event.
    fn row_of(
        &self,
        book: &Book<'_>,
        number: u64,
        seen: Seen<'_>,
        stand: Option<Stand>,
    ) -> Result<Row, AllocError> {
        let acts = self.lane_of(post_of(seen.event));
        let sign = sign_of(seen.event, seen.moment, seen.reply);
        let words = self.words_of(book, seen)?;
        Ok(Row {
            number,
            folded: self.folded,
            acts,
            sign,
            spot: spot_of(sign, acts, stand),
            place: place_words(self.alloc, book, seen)?,
            words,
            repeat: None,
        })
    }

    /// What an event changed, in words.
    fn words_of(&self, book: &Book<'_>, seen: Seen<'_>) -> Result<String, AllocError> {
        let mut words = Words::new(self.alloc);
        add_words(&mut words, book, seen);
        self.add_lost(&mut words);
        words.finish()
    }

    /// Folds the last rows, if they repeat the rows before them with nothing changed in between.
    fn fold_rows(&mut self) -> Result<(), AllocError> {
        match repeated(self.rows.as_slice()) {
            Some(tail) if self.is_steady(tail.start) => {
                self.forget_states(tail.start);
                self.fold(tail)
            }
            _ => Ok(()),
        }
    }

    /// Whether no packet went anywhere from a row on, and what lasts is what lasted before it.
    fn is_steady(&self, row: usize) -> bool {
        let stays = match self.moves.last() {
            Some(step) => step.row < row,
            None => true,
        };
        let before = self.spans.iter().filter(|span| span.lasts_into(row));
        let now = self.spans.iter().filter(|span| span.to.is_none());
        stays
            && before.count() == now.count()
            && self
                .spans
                .iter()
                .filter(|span| span.lasts_into(row))
                .all(|span| self.lasting(span.lane, span.state).is_some())
    }

    /// Forgets what began or ended from a row on.
    fn forget_states(&mut self, row: usize) {
        let kept = self.spans.iter().filter(|span| span.from < row).count();
        self.spans.truncate(kept);
        for span in self.spans.iter_mut() {
            if span.lasts_into(row) {
                span.to = None;
            }
        }
    }

    /// Folds rows into the one before them that stands for as many, or into one of their own.
    fn fold(&mut self, tail: Tail) -> Result<(), AllocError> {
        let number = match self.rows.get(tail.start) {
            Some(row) => row.number,
            None => 0,
        };
        let folded = self.take_rows(tail.start);
        if tail.repeat.times == 1 {
            if let Some(row) = self.rows.last_mut() {
                row.fold_more(folded);
            }
            return Ok(());
        }
        self.rows.push(Row {
            number,
            folded,
            acts: None,
            sign: Sign::Acts,
            spot: None,
            place: String::new(self.alloc),
            words: String::new(self.alloc),
            repeat: Some(tail.repeat),
        })?;
        Ok(())
    }

    /// Takes the rows from one on, and answers how many events they stand for.
    fn take_rows(&mut self, row: usize) -> u64 {
        let mut events = 0u64;
        for _row in row..self.rows.len() {
            if let Some(row) = self.rows.pop() {
                events = events.saturating_add(row.events());
            }
        }
        events
    }

    /// Adds the packets that nobody has any more from the next row on.
    fn add_lost(&self, words: &mut Words) {
        for step in self.moves.iter() {
            if step.row == self.rows.len() && is_lost(step.to) {
                words.add("; nobody has ");
                add_packet(words, step.packet as u64, "");
            }
        }
    }

    /// The lane for something.
    fn lane_of(&self, post: Post) -> Option<usize> {
        self.lanes.iter().position(|lane| lane.post == post)
    }

    /// Where the line of a packet is, if it is drawn.
    fn stand_of(&self, packet: Option<u64>) -> Option<Stand> {
        let place = usize::try_from(packet?).ok()?;
        *self.stands.get(place)?
    }

    /// Follows the packets that an event moves: the one that it is about, and those whose place it
    /// takes away.
    fn follow(&mut self, seen: Seen<'_>) -> Result<(), AllocError> {
        match *seen.reply {
            Reply::Started(n) => {
                if n == self.stands.len() as u64 {
                    self.stands.push(None)?;
                }
                self.settle(seen.machine, n)?;
            }
            Reply::Topped { packet, .. } => self.end(packet)?,
            Reply::Stepped
            | Reply::Finished
            | Reply::Waited
            | Reply::Idle
            | Reply::Refused
            | Reply::Bug(_)
            | Reply::Wrong(_) => {
                if let Some(
                    Acting {
                        packet: Some(n),
                        ..
                    },
                ) = seen.moment.acting
                {
                    self.settle(seen.machine, n)?;
                }
            }
        }
        if self.rights.is_none() || is_return(seen) {
            self.follow_rest(seen.machine)?;
        }
        Ok(())
    }

    /// Follows the packets whose place may be taken away by a step about another one or about none.
    fn follow_rest(&mut self, machine: &Checked) -> Result<(), AllocError> {
        for place in 0..self.stands.len() {
            if self.is_loose(place) {
                self.settle(machine, place as u64)?;
            }
        }
        Ok(())
    }

    /// Whether a packet's line is where the packet may lose its place by a step about another one
    /// or about none. In a run of an accepted set a thread's place with a right is taken away so
    /// only with the routine that returns. Without rights any of a thread's may have been since the
    /// last row, and another packet may come into a current slot; lists lose only what a step is
    /// about. The lanes of threads stand first.
    fn is_loose(&self, packet: usize) -> bool {
        match self.stands.get(packet) {
            Some(Some(stand)) => {
                stand.lane < self.threads || self.rights.is_none() && stand.hold == Hold::Slot
            }
            _ => false,
        }
    }

    /// The line of a packet goes to what holds it in the next row, if it lives.
    fn settle(&mut self, machine: &Checked, n: u64) -> Result<(), AllocError> {
        if machine.shared().live_packet(n).is_none() {
            return Ok(());
        }
        let stay = stay_of(self.alloc, &self.rights, machine, n)?;
        self.go(n, stay)
    }

    /// The line of a packet goes somewhere in the next row, unless it is there.
    fn go(&mut self, n: u64, stay: Stay) -> Result<(), AllocError> {
        let (Ok(packet), Some(lane)) = (usize::try_from(n), self.lane_of(stay.post)) else {
            return Ok(());
        };
        let Some(stood) = self.stands.get(packet).copied() else {
            return Ok(());
        };
        let track = match stood {
            Some(stand) if stand.lane == lane => {
                if stand.hold == stay.hold {
                    return Ok(());
                }
                stand.track
            }
            _ => self.enter(lane)?,
        };
        if let Some(stand) = stood {
            if stand.lane != lane {
                self.leave(stand);
            }
        }
        self.stand(
            packet,
            Some(Stand {
                lane,
                track,
                hold: stay.hold,
            }),
        )
    }

    /// The line of a packet ends in the next row.
    fn end(&mut self, n: u64) -> Result<(), AllocError> {
        let Some(stand) = self.stand_of(Some(n)) else {
            return Ok(());
        };
        self.leave(stand);
        match usize::try_from(n) {
            Ok(packet) => self.stand(packet, None),
            Err(_) => Ok(()),
        }
    }

    /// Notes where the line of a packet is from the next row on.
    fn stand(&mut self, packet: usize, to: Option<Stand>) -> Result<(), AllocError> {
        if let Some(stand) = self.stands.get_mut(packet) {
            *stand = to;
        }
        self.moves.push(Move {
            packet,
            row: self.rows.len(),
            to,
        })?;
        Ok(())
    }

    /// Takes a track of a lane.
    fn enter(&mut self, lane: usize) -> Result<usize, AllocError> {
        match self.lanes.get_mut(lane) {
            Some(lane) => lane.enter(),
            None => Ok(0),
        }
    }

    /// Gives a track back.
    fn leave(&mut self, stand: Stand) {
        if let Some(lane) = self.lanes.get_mut(stand.lane) {
            lane.leave(stand.track);
        }
    }

    /// Notes what lasts in the lanes from the next row on.
    fn note_states(&mut self, book: &Book<'_>, seen: Seen<'_>) -> Result<(), AllocError> {
        if let Some(thread) = thread_of(seen.event) {
            if let Some(lane) = self.lane_of(Post::Thread(thread)) {
                let waits = matches!(*seen.reply, Reply::Waited);
                self.turn(lane, State::Busy, seen.top.is_some())?;
                self.turn(lane, State::Waits, waits)?;
                self.note_lock(book, seen, thread, lane)?;
            }
        }
        if let Event::Interrupt { device } | Event::Dpc { device, .. } = *seen.event {
            if let Some(lane) = self.lane_of(Post::Device(device)) {
                let (_starts, queued) = seen.machine.due(device);
                self.turn(lane, State::Queued, queued)?;
            }
        }
        Ok(())
    }

    /// Notes whether a thread owns the lock from the next row on that its step is about.
    fn note_lock(
        &mut self,
        book: &Book<'_>,
        seen: Seen<'_>,
        thread: u8,
        lane: usize,
    ) -> Result<(), AllocError> {
        let Some(acting) = &seen.moment.acting else {
            return Ok(());
        };
        let Some(lock) = lock_of(acting) else {
            return Ok(());
        };
        let owned = owns(seen.machine, thread, lock);
        let number = self.number_of_lock(book, lock)?;
        if owned {
            if let Some(lane) = self.lanes.get_mut(lane) {
                lane.add_bar(number)?;
            }
        }
        self.turn(lane, State::Owns(number), owned)
    }

    /// The place of a lock among those that were owned.
    fn number_of_lock(&mut self, book: &Book<'_>, lock: Lock) -> Result<usize, AllocError> {
        let known = self.locks.iter().position(|named| named.lock == lock);
        match known {
            Some(number) => Ok(number),
            None => {
                let number = self.locks.len();
                self.locks.push(NamedLock::of(self.alloc, book, lock)?)?;
                Ok(number)
            }
        }
    }

    /// The place of a state of a lane that lasts, if it does.
    fn lasting(&self, lane: usize, state: State) -> Option<usize> {
        self.spans.iter().position(|span| span.lane == lane
            && span.state == state
            && span.to.is_none())
    }

    /// A state of a lane begins or ends in the next row, unless it is so already.
    fn turn(&mut self, lane: usize, state: State, on: bool) -> Result<(), AllocError> {
        let row = self.rows.len();
        match self.lasting(lane, state) {
            Some(place) if !on => {
                if let Some(span) = self.spans.get_mut(place) {
                    span.to = Some(row);
                }
                Ok(())
            }
            None if on => {
                self.spans.push(Span {
                    lane,
                    state,
                    from: row,
                    to: None,
                })?;
                Ok(())
            }
            _ => Ok(()),
        }
    }
}

/// Whether a packet's line goes to nobody.
fn is_lost(to: Option<Stand>) -> bool {
    matches!(
        to,
        Some(Stand {
            hold: Hold::Nobody,
            ..
        })
    )
}

/// The lane in which an event happens.
fn post_of(event: &Event) -> Post {
    match *event {
        Event::Issue { thread, .. }
        | Event::Cancel { thread, .. }
        | Event::Dpc { thread, .. }
        | Event::StartIo { thread, .. }
        | Event::Step { thread } => Post::Thread(thread),
        Event::Interrupt { device } => Post::Device(device),
    }
}

/// Where the sign of an event stands.
fn spot_of(sign: Sign, acts: Option<usize>, stand: Option<Stand>) -> Option<Spot> {
    match stand {
        Some(stand) if sign.is_on_line() => Some(Spot {
            lane: stand.lane,
            track: Some(stand.track),
        }),
        _ => match acts {
            Some(lane) => Some(Spot { lane, track: None }),
            None => None,
        },
    }
}
