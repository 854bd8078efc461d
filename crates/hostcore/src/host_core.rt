//! The core: a world, the history of what was done to it, and the seats of its threads.

ghost use Rattle.std.specs.Prelude.{◌≡◌, ◌≢◌, ◌≤◌, ◌↔◌, ◌++◌, ◌∷◌, [], All, MatchBool, None, Some};
ghost use Rattle.std.specs.Prelude.{false, true, length, nat_eq, replicate, option_map, slice_get};
ghost use Rattle.std.specs.Prelude.{slice_set, IfErr, IfNone, IfOk, IfSome, IsErr, OnErr, OnOk};
ghost use Rattle.model.specs.declared.limits.TheConstants.{MAX_HISTORY, MAX_THREADS};
ghost use Rattle.hostcore.specs.Core.{IsOwed, count_of, counted, entered, performed, reply_in};
ghost use Rattle.hostcore.specs.Core.{event_in, world_of};
ghost use Rattle.hostcore.specs.Stepping.{Steps, is_of_none};
ghost use Rattle.machine.specs.Runs.{TellsOf};
ghost use Rattle.model.specs.History.{IsLegal, entry_named, event_of, events_of, is_kept};
ghost use Rattle.model.specs.History.{outcome_named};
ghost use Rattle.model.specs.Run.{thread_of};
ghost use Rattle.model.specs.View.{busy_at, due_at};
ghost use Rattle.laws_runs.specs.NeverStops.{LetsGoOn};
ghost use Rattle.laws_runs.specs.Rules.{KeepsTheRules};

use crate::log::Log;
use crate::seat::Seat;
use crate::stored::Stored;
use crate::ticket::{Taken, Ticket};
use laws_runs::{top_outs_are_told, waiting_changes_nothing};
use machine::World;
use model::event::{Event, Reply};
use model::history::{Command, Entry, Name, Outcome};
use model::memory::OutOfMemory;
use std::alloc::Global;
use std::marker::Model;
use verifier::Accepted;

/// The history has all entries that it may have: nothing was done.
#[derive(Clone, Copy)]
pub struct LogFull;

/// What became of a step of a seat's thread.
#[derive(Clone, Copy)]
pub enum Stepped {
    /// The thread has no frames: nothing was done.
    Idle,
    /// The step is one entry more.
    Entered,
    /// The thread waits: nothing changed.
    Waits,
    /// The history has all entries that it may have: nothing was done.
    Full,
}

/// The world of a run of an accepted set, with the stored history of that run. Its type keeps that
/// each reply of the history is the one that the run makes there, and that the world is the run's.
#[derive(Drop)]
pub struct Core {
    world: World,
    threads: u8,
    log: Log,
    /// Of each thread, where its seat is given out, how many entries were made with it.
    seats: Vec<Option<u64>>,
}

impl Model for Core {
    ghost use Rattle.hostcore.specs.Core.{CoreState};
    ghost use Rattle.hostcore.specs.Kept.{IsKept};

    ghost Value = { CoreState };

    ghost view = { λ c. record {
      set = c.world.set;
      threads = c.threads;
      log = c.log.most;
      history = c.log.entries;
      seats = c.seats.items;
    } };

    ghost invariant = { λ c. IsKept c.world c.threads c.log c.seats.items };
}

/// Whether a reply says that something may have changed.
fn is_kept(reply: &Reply) -> bool
    ensures { result ≡ is_kept reply.now }
{
    !matches!(reply, Reply::Waited | Reply::Idle)
}

/// Whether a reply to a step is that of a thread without frames, or of no thread.
#[inline]
fn is_of_none(reply: &Reply) -> bool
    ensures { result ≡ is_of_none reply.now }
{
    matches!(reply, Reply::Idle | Reply::Refused)
}

/// Whether a thread had frames before a step, by the reply to it where that tells, and else by the
/// world after it, in which nothing has changed.
fn had_frames(world: &World, thread: u8, reply: &Reply) -> bool
    ensures { MatchBool (is_of_none reply.now) (TellsOf world.now (λ w. busy_at w thread) result)
        (result ≡ true) }
{
    if !is_of_none(reply) {
        return true;
    }
    match world.thread(thread) {
        Some(view) => view.frames > 0,
        None => false,
    }
}

/// Appends an entry, which the seat of its thread counts, if it is given out.
#[inline(always)]
fn append(log: &mut Log, seats: &mut Vec<Option<u64>>, entry: Entry)
    requires room { nat_eq (length log.old.entries) log.old.most ≡ false }
    requires counts { All (λ seat. IfSome seat (λ n. n ≤ MAX_HISTORY)) seats.old.items }
    requires own { IfSome (thread_of entry.event) (λ t. t ≡ entry.thread) }
    requires goes_on { LetsGoOn entry.reply }
    ensures log { log.new ≡ record log.old { entries = log.old.entries ++ entry ∷ [] } }
    ensures seats { seats.new.items ≡ counted seats.old.items entry.thread }
{
    log.append(entry);
    let place = entry.thread as usize;
    if let Some(Some(count)) = seats.get(place).copied() {
        seats[place] = Some(count + 1);
    }
}

impl Core {
    /// A core of an accepted set with so many threads, 1 to 64, an empty history that may have so
    /// many entries, at most `MAX_HISTORY`, and no seat given out. All memory that it ever needs is
    /// taken here: the set comes back where some of it is refused.
    pub fn new(
        alloc: Global,
        accepted: Accepted,
        threads: u8,
        log: usize,
    ) -> Result<Core, (Accepted, OutOfMemory)>
        requires some { 1 ≤ threads }
        requires few { threads ≤ MAX_THREADS }
        requires short { log ≤ MAX_HISTORY }
        ensures core { IfOk result (λ core. core ≡ record {
          set = accepted;
          threads = threads;
          log = log;
          history = [];
          seats = replicate threads None;
        }) }
        ensures back { IfErr result (λ refused. refused.0 ≡ accepted) }
    {
        let Ok(entries) = Log::new(alloc, log) else {
            return Err((accepted, OutOfMemory));
        };
        let Ok(seats) = Vec::from_elem(alloc, None, threads as usize) else {
            return Err((accepted, OutOfMemory));
        };
        let world = World::new(alloc, accepted, threads)?;
        Ok(Core {
            world,
            threads,
            log: entries,
            seats,
        })
    }

    /// The entries so far: each reply is the one that the run makes there, and the run keeps the
    /// rules.
    pub fn history(&self) -> &[Stored]
        ensures entries { result.now ≡ self.now.history }
        ensures room { length self.now.history ≤ self.now.log }
        ensures legal { IsLegal self.now.set self.now.threads self.now.history }
        ensures rules { KeepsTheRules self.now.set self.now.threads
            (events_of self.now.history) }
    {
        self.log.entries()
    }

    /// The seat of a thread: none where there is no such thread or its seat is given out.
    pub fn seat(&mut self, thread: u8) -> Option<Seat>
        ensures given { IfSome result (λ seat. (seat ≡ thread)
            × (slice_get self.old.seats thread ≡ Some None)
            × (self.new ≡ record self.old { seats = slice_set self.old.seats thread (Some 0) })) }
        ensures none { IfNone result ((slice_get self.old.seats thread ≢ Some None)
            × (self.new ≡ self.old)) }
    {
        let place = thread as usize;
        match self.seats.get(place).copied() {
            Some(None) => {
                self.seats[place] = Some(0);
                Some(Seat::of(thread))
            }
            _ => None,
        }
    }

    /// How many entries were made with a seat.
    pub fn counted(&self, seat: &Seat) -> u64
        ensures { result ≡ count_of (slice_get self.now.seats seat.now) }
    {
        match self.seats.get(seat.thread() as usize).copied() {
            Some(seat) => seat.unwrap_or(0),
            None => 0,
        }
    }

    /// Takes a seat back, and answers how many entries were made with it.
    pub fn give_back(&mut self, seat: Seat) -> u64
        ensures counted { result ≡ count_of (slice_get self.old.seats seat) }
        ensures back { self.new
            ≡ record self.old { seats = slice_set self.old.seats seat None } }
    {
        let place = seat.into_thread() as usize;
        let Some(seat) = self.seats.get(place).copied() else {
            return 0;
        };
        self.seats[place] = None;
        seat.unwrap_or(0)
    }

    /// Applies an event that is about the seat's thread or about none, and answers as the run does.
    /// It becomes an entry, unless the thread waits or has nothing to do: then nothing changes. At
    /// a full history nothing is done.
    pub fn apply(&mut self, seat: &mut Seat, event: Event) -> Result<Reply, LogFull>
        requires own { IfSome (thread_of event) (λ t. t ≡ seat.old) }
        ensures full { IsErr result ↔ (length self.old.history ≡ self.old.log) }
        ensures unchanged { OnErr result (self.new ≡ self.old) }
        ensures reply { IfOk result (λ reply. reply ≡ reply_in self.old event) }
        ensures applied { OnOk result (self.new ≡ entered self.old seat.old event None) }
        ensures seat { seat.new ≡ seat.old }
    {
        if self.log.is_full() {
            return Err(LogFull);
        }
        Ok(self.enter(seat.thread(), event, None))
    }

    /// Steps the seat's thread: applies that event, and answers as [`Core::apply`] does.
    pub fn step(&mut self, seat: &mut Seat) -> Result<Reply, LogFull>
        ensures full { IsErr result ↔ (length self.old.history ≡ self.old.log) }
        ensures unchanged { OnErr result (self.new ≡ self.old) }
        ensures reply { IfOk result (λ reply. reply
            ≡ reply_in self.old (Event.Step seat.old)) }
        ensures stepped { OnOk result
            (self.new ≡ entered self.old seat.old (Event.Step seat.old) None) }
        ensures seat { seat.new ≡ seat.old }
    {
        let thread = seat.thread();
        self.apply(seat, Event::Step { thread })
    }

    /// Steps the seat's thread, if it has frames. The step becomes an entry, unless the thread
    /// waits: then nothing changes. At a full history nothing is done.
    pub fn step_if_busy(&mut self, seat: &mut Seat) -> Stepped
        ensures steps { Steps self.old seat.old self.new result }
        ensures seat { seat.new ≡ seat.old }
    {
        if self.log.is_full() {
            return if self.busy(seat) {
                Stepped::Full
            } else {
                Stepped::Idle
            };
        }
        self.step_on(seat.thread())
    }

    /// Steps a thread. Whether it has frames is seldom asked: most replies tell.
    fn step_on(&mut self, thread: u8) -> Stepped
        requires room { nat_eq (length self.old.history) self.old.log ≡ false }
        ensures steps { Steps self.old thread self.new result }
    {
        waiting_changes_nothing();
        let event = Event::Step { thread };
        let told = self.world.apply(&event);
        if !had_frames(&self.world, thread, &told) {
            return Stepped::Idle;
        }
        if !is_kept(&told) {
            return Stepped::Waits;
        }
        let step = Entry {
            thread,
            event,
            reply: told,
            name: None,
        };
        append(&mut self.log, &mut self.seats, step);
        Stepped::Entered
    }

    /// Performs a command with a seat, and answers as the run does to its event. It always becomes
    /// an entry. At a full history the command comes back, and nothing is done.
    pub fn perform(&mut self, seat: &mut Seat, taken: Taken) -> Result<Reply, (LogFull, Taken)>
        ensures full { IsErr result ↔ (length self.old.history ≡ self.old.log) }
        ensures unchanged { IfErr result (λ back. (back.1 ≡ taken) × (self.new ≡ self.old)) }
        ensures reply { IfOk result (λ reply. reply
            ≡ reply_in self.old (event_in self.old seat.old taken)) }
        ensures performed { OnOk result (self.new ≡ performed self.old seat.old taken) }
        ensures seat { seat.new ≡ seat.old }
    {
        if self.log.is_full() {
            return Err((LogFull, taken));
        }
        let thread = seat.thread();
        let name = taken.name();
        let event = self.event_of(thread, taken.give_up());
        Ok(self.enter(thread, event, Some(name)))
    }

    /// An event enters with the seat of a thread, for the command of a name or for none.
    fn enter(&mut self, thread: u8, event: Event, name: Option<Name>) -> Reply
        requires room { nat_eq (length self.old.history) self.old.log ≡ false }
        requires own { IfSome (thread_of event) (λ t. t ≡ thread) }
        ensures reply { result ≡ reply_in self.old event }
        ensures entered { self.new ≡ entered self.old thread event name }
    {
        waiting_changes_nothing();
        let reply = self.world.apply(&event);
        if name.is_some() || is_kept(&reply) {
            let entry = Entry {
                thread,
                event,
                reply,
                name,
            };
            append(&mut self.log, &mut self.seats, entry);
        }
        reply
    }

    /// A command as an event on a thread.
    fn event_of(&self, thread: u8, command: Command) -> Event
        ensures { result ≡ event_of self.now.history thread command }
    {
        match command {
            Command::Request {
                device,
                major,
                argument,
            } => Event::Issue {
                thread,
                device,
                major,
                argument,
            },
            Command::Cancel { name, level } => Event::Cancel {
                thread,
                packet: self.log.packet_named(name),
                level,
            },
            Command::Interrupt { device } => Event::Interrupt { device },
        }
    }

    /// What came of a ticket's command. The ticket comes back while that is owed: while the command
    /// has no entry, or the packet of its request is live.
    pub fn collect(&self, ticket: Ticket) -> Result<Outcome, Ticket>
        ensures outcome { IfOk result (λ outcome. outcome_named self.now.history ticket
            ≡ Some outcome) }
        ensures back { IfErr result (λ back. back ≡ ticket) }
        ensures none { OnErr result (outcome_named self.now.history ticket ≡ None) }
        ensures owed { IsErr result ↔ IsOwed self.now ticket }
    {
        top_outs_are_told();
        match self.log.outcome(ticket.name()) {
            Some(outcome) => {
                ticket.spent();
                Ok(outcome)
            }
            None => Err(ticket),
        }
    }

    /// The reply to a ticket's command, if it has an entry: its outcome is not owed any more.
    pub fn abandon(&self, ticket: Ticket) -> Option<Reply>
        ensures { result ≡ option_map (λ entry. entry.reply)
            (entry_named self.now.history ticket) }
    {
        let entry = self.log.named(ticket.name());
        ticket.spent();
        entry.map(|entry| entry.reply)
    }

    /// What is due of a device: whether its start list has a packet, and whether its DPC is queued.
    /// Neither where there is no such device.
    pub fn due(&self, device: u8) -> (bool, bool)
        ensures { result ≡ due_at (world_of self.now) device }
    {
        self.world.due(device)
    }

    /// Whether the seat's thread has frames.
    pub fn busy(&self, seat: &Seat) -> bool
        ensures { result ≡ busy_at (world_of self.now) seat.now }
    {
        match self.world.thread(seat.thread()) {
            Some(thread) => thread.frames > 0,
            None => false,
        }
    }
}
