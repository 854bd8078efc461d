//! A scenario as it plays on the reference machine.

ghost use Rattle.std.specs.Prelude.{◌≡◌, ◌≤◌, ◌<◌, ◌-◌, [], IfOk, IfSome, IsTrue, is_none, length};
ghost use Rattle.std.specs.Prelude.{option_map, true};
ghost use Rattle.model.specs.declared.limits.TheConstants.{MAX_THREADS};
ghost use Rattle.model.specs.History.{started_by, top_out_of};
ghost use Rattle.tell_audit.specs.Ends.{amiss_in};
ghost use Rattle.std.specs.List.{list_any};
ghost use Rattle.scenario_run.specs.Alike.{AreAlike};
ghost use Rattle.scenario_run.specs.Going.{Gone};
ghost use Rattle.scenario_run.specs.Holding.{is_bug};
ghost use Rattle.scenario_run.specs.Past.{events_of};
ghost use Rattle.scenario_run.specs.Told.{last_of};
ghost use Rattle.scenario_run.specs.Playing.{begun, cancelled, happened, has_room, issued, most_of};
ghost use Rattle.scenario_run.specs.Playing.{number_of, one, outcome_of, outcome_of_cancel};
ghost use Rattle.scenario_run.specs.Playing.{replies_of, reply_in, reply_of, run_of, run_thread};
ghost use Rattle.scenario_run.specs.Playing.{running, running_to, stepping, with_event, world_of};
ghost use Rattle.scenario_world.specs.Until.{is_before};

use crate::past::add_past;
use crate::runner::{Keeping, Runner};
use crate::told::Told;
use crate::walking::walk;
use checked::Checked;
use driver_set::DriverSet;
use hunt_worlds::world::same_world;
use interleave::read::Repeated;
use interleave::schedule::MAX_EVENTS;
use model::event::{Event, Reply};
use model::history::TopOut;
use scenario_world::going::is_busy_at;
use scenario_world::until::{Until, is_before};
use std::alloc::{AllocError, Global};
use std::marker::Model;

/// How many steps a packet is reckoned to take, where room is made.
const STEPS_EACH: usize = 4;

/// How a step of a scenario went.
#[derive(Clone, Copy)]
pub enum Outcome {
    /// It did what it says.
    Done,
    /// Its thread waits for a lock.
    Waits,
    /// It was refused, found nothing to do, or stopped the run; or what is expected doesn't hold.
    Fails,
}

/// How far a thread has gone by steps one after another.
#[derive(Clone, Copy)]
pub(crate) struct Ahead {
    /// How many of its steps are left, without those that only stepped.
    pub left: usize,
    /// How the one behind these went, if one was made.
    pub last: Option<Outcome>,
}

/// A scenario as it plays.
#[derive(Drop)]
pub struct Playing {
    runner: Runner,
    threads: u8,
    /// What has happened, each event as often as it did in a row.
    past: Vec<Repeated>,
    /// How many events that are.
    count: usize,
    /// What the run replied.
    told: Told,
    /// For each issue so far the number of its packet, if it wasn't refused.
    packets: Vec<Option<u64>>,
}

impl Model for Playing {
    ghost use Rattle.std.specs.Prelude.{◌≡◌, ◌≤◌};
    ghost use Rattle.model.specs.declared.limits.TheConstants.{MAX_THREADS};
    ghost use Rattle.scenario_run.specs.Playing.{Playing};
    ghost use Rattle.scenario_run.specs.Past.{IsPast, events_of};

    ghost Value = { Playing };

    ghost view = { λ p. record {
      set = p.runner.machine.set;
      threads = p.threads;
      events = events_of p.past.items;
      packets = p.packets.items;
    } };

    ghost invariant = { λ p. IsPast p.runner p.threads p.count p.past.items p.told };
}

impl Playing {
    /// A scenario over a set, on 1 to 64 threads, before its first step.
    ///
    /// # Errors
    ///
    /// When memory runs out.
    pub fn new(alloc: Global, set: &DriverSet, threads: u8) -> Result<Playing, AllocError>
        requires some { 1 ≤ threads }
        requires few { threads ≤ MAX_THREADS }
        ensures { IfOk result (λ p. p ≡ begun set.now threads) }
    {
        Ok(Playing {
            runner: Runner::new(alloc, set, threads)?,
            threads,
            past: Vec::new(alloc),
            count: 0,
            told: Told::new(alloc),
            packets: Vec::new(alloc),
        })
    }

    /// The same scenario behind other events, with the same packets.
    ///
    /// # Errors
    ///
    /// When memory runs out, or there are more events than a schedule has.
    pub fn replayed(&self, alloc: Global, events: &[Event]) -> Result<Playing, AllocError>
        ensures { IfOk result (λ p. p ≡ record self.now { events = events.now }) }
    {
        if events.len() > MAX_EVENTS {
            return Err(AllocError);
        }
        let mut fresh = self.afresh(alloc)?;
        for event in events {
            let _reply = fresh.apply(*event)?;
        }
        Ok(fresh)
    }

    /// The same scenario before its first event, with the same packets.
    fn afresh(&self, alloc: Global) -> Result<Playing, AllocError>
        ensures { IfOk result (λ p. p ≡ record self.now { events = [] }) }
    {
        let mut fresh = Playing::new(alloc, self.runner.machine.set(), self.threads())?;
        if let Keeping::Ledger = self.runner.keeping {
            fresh.keep_ledger()?;
        }
        fresh.packets = Vec::from_slice(alloc, self.packets.as_slice())?;
        Ok(fresh)
    }

    /// Whether it goes on like another one over the same set, on as many threads: both have led to
    /// one world by as many events, no bug check has stopped them, and packets topped out alike.
    pub fn is_alike(&self, other: &Playing) -> bool
        ensures { IsTrue result → AreAlike self.now other.now }
    {
        let stopped = self.runner.machine.stopped() || other.runner.machine.stopped();
        if stopped || self.count != other.count {
            return false;
        }
        let told = self.told.is_alike(&other.told);
        if told {
            let same = same_world(&self.runner.machine, &other.runner.machine);
            return same;
        }
        false
    }

    /// Keeps what an audit needs along the run, if nothing has happened yet.
    ///
    /// # Errors
    ///
    /// When memory runs out.
    #[tactic(auto, using(crate::proofs::Pasts::past_begun))]
    pub fn keep_ledger(&mut self) -> Result<(), AllocError>
        ensures { self.new ≡ self.old }
    {
        if self.count > 0 {
            return Ok(());
        }
        self.runner.keep_ledger(self.threads)
    }

    /// Makes room for what so many steps make happen, where each makes one event happen, as often
    /// as it does, and each fourth issues a packet.
    ///
    /// # Errors
    ///
    /// When memory runs out.
    pub(crate) fn make_room(&mut self, steps: usize) -> Result<(), AllocError>
        ensures { self.new ≡ self.old }
    {
        self.past.reserve(steps)?;
        self.packets.reserve(steps / STEPS_EACH)?;
        self.told.make_room_for(steps / STEPS_EACH)
    }

    /// An event happens.
    fn apply(&mut self, event: Event) -> Result<Reply, AllocError>
        requires { has_room self.old ≡ true }
        ensures { IfOk result (λ reply. (self.new ≡ with_event self.old event)
            × (reply ≡ reply_in self.old event)) }
    {
        self.told.make_room()?;
        self.past.reserve(1)?;
        add_past(&mut self.past, Repeated { event, count: 1 });
        self.count += 1;
        let reply = self.runner.apply(&event);
        self.told.note(&reply);
        Ok(reply)
    }

    /// An event happens, if there is room for it.
    fn happen(&mut self, event: Event) -> Result<Reply, AllocError>
        ensures { IfOk result (λ reply. (self.new ≡ happened self.old event)
            × (reply ≡ reply_of self.old event)) }
    {
        if self.count < MAX_EVENTS {
            self.apply(event)
        } else {
            Ok(Reply::Refused)
        }
    }

    /// One event.
    ///
    /// # Errors
    ///
    /// When memory runs out.
    pub fn one(&mut self, event: Event) -> Result<Outcome, AllocError>
        ensures { IfOk result (λ outcome.
            record { now = self.new; outcome = outcome } ≡ one self.old event) }
    {
        let reply = self.happen(event)?;
        Ok(outcome_of(&reply))
    }

    /// A request, whose packet is the next one of the scenario.
    pub(crate) fn issue(&mut self, event: Event) -> Result<Outcome, AllocError>
        ensures { IfOk result (λ outcome.
            record { now = self.new; outcome = outcome } ≡ issued self.old event) }
    {
        let reply = self.happen(event)?;
        self.packets.push(started_by(&event, &reply))?;
        Ok(outcome_of(&reply))
    }

    /// IoCancelIrp is called for a packet of the scenario.
    pub(crate) fn cancel(
        &mut self,
        thread: u8,
        packet: u16,
        level: u8,
    ) -> Result<Outcome, AllocError>
        ensures { IfOk result (λ outcome. record { now = self.new; outcome = outcome }
            ≡ cancelled self.old thread level (number_of self.old packet)) }
    {
        let Some(packet) = self.number_of(packet) else {
            return Ok(Outcome::Fails);
        };
        let reply = self.happen(Event::Cancel {
            thread,
            packet,
            level,
        })?;
        Ok(outcome_of_cancel(&reply))
    }

    /// A thread makes steps one after another while it has frames and each only steps, and the one
    /// behind these, at most so many, and up to where they are to end.
    pub(crate) fn go_ahead(
        &mut self,
        thread: u8,
        most: usize,
        until: Until,
    ) -> Result<Ahead, AllocError>
        ensures { IfOk result (λ gone. (gone.left ≤ most) × IfSome gone.last (λ _. 0 < gone.left)
            × Gone until thread self.old (most - gone.left) gone.last self.new) }
    {
        let room = MAX_EVENTS.saturating_sub(self.count);
        if room == 0 {
            return Ok(Ahead {
                left: most,
                last: None,
            });
        }
        self.told.make_room()?;
        self.past.reserve(1)?;
        let walked = walk(&mut self.runner, thread, most.min(room), until);
        let event = Event::Step { thread };
        let count = walked.count();
        add_past(&mut self.past, Repeated { event, count });
        self.count += count;
        self.told.note_walk(&walked);
        Ok(Ahead {
            left: most - walked.made,
            last: outcome_if(&walked.last),
        })
    }

    /// So many steps of a thread, up to one that fails.
    #[tactic(auto, using(crate::proofs::Going::steps_ahead, crate::proofs::Stepping::steps_done, crate::proofs::Stepping::steps_waited, crate::proofs::Stepping::steps_failed, crate::proofs::Stepping::steps_end_done, crate::proofs::Stepping::steps_end_waited, crate::proofs::Stepping::steps_end_failed))]
    pub(crate) fn steps(&mut self, thread: u8, count: u64) -> Result<Outcome, AllocError>
        ensures { IfOk result (λ outcome.
            record { now = self.new; outcome = outcome } ≡ stepping thread count self.old) }
    {
        let mut left = count as usize;
        while left > 0 {
            let ahead = self.go_ahead(thread, left, Until::Never)?;
            if ahead.left == 0 {
                return Ok(Outcome::Done);
            }
            let outcome = match ahead.last {
                Some(outcome) => outcome,
                None => self.one(Event::Step { thread })?,
            };
            match outcome {
                Outcome::Fails => return Ok(Outcome::Fails),
                Outcome::Done | Outcome::Waits => {}
            }
            left = ahead.left - 1;
        }
        Ok(Outcome::Done)
    }

    /// So many steps may a run of a thread have, and one that fails for want of room.
    pub(crate) fn most(&self) -> usize
        ensures { result ≡ most_of self.now }
    {
        (MAX_EVENTS + 1).saturating_sub(self.count)
    }

    /// Steps of a thread until it is idle or waits.
    pub(crate) fn run(&mut self, thread: u8) -> Result<Outcome, AllocError>
        ensures { IfOk result (λ outcome.
            record { now = self.new; outcome = outcome } ≡ run_thread thread self.old) }
    {
        if thread >= self.threads {
            return Ok(Outcome::Fails);
        }
        let most = self.most();
        self.run_on(thread, most)
    }

    /// The same by at most so many steps.
    #[tactic(auto, using(crate::proofs::Going::runs_ahead, crate::proofs::Stepping::run_idle, crate::proofs::Stepping::run_done, crate::proofs::Stepping::run_waited, crate::proofs::Stepping::run_failed, crate::proofs::Stepping::run_end_done, crate::proofs::Stepping::run_end_waited, crate::proofs::Stepping::run_end_failed))]
    fn run_on(&mut self, thread: u8, most: usize) -> Result<Outcome, AllocError>
        ensures { IfOk result (λ outcome.
            record { now = self.new; outcome = outcome } ≡ running thread most self.old) }
    {
        let mut left = most;
        while left > 0 {
            let ahead = self.go_ahead(thread, left, Until::Never)?;
            if ahead.left == 0 {
                return Ok(Outcome::Fails);
            }
            let outcome = match ahead.last {
                Some(outcome) => outcome,
                None => {
                    if !is_busy_at(&self.runner.machine, thread) {
                        return Ok(Outcome::Done);
                    }
                    self.one(Event::Step { thread })?
                }
            };
            match outcome {
                Outcome::Done => {}
                Outcome::Waits => return Ok(Outcome::Waits),
                Outcome::Fails => return Ok(Outcome::Fails),
            }
            left = ahead.left - 1;
        }
        Ok(Outcome::Fails)
    }

    /// Steps of a thread up to where they are to end.
    pub(crate) fn run_to(&mut self, thread: u8, until: Until) -> Result<Outcome, AllocError>
        ensures { IfOk result (λ outcome. record { now = self.new; outcome = outcome }
            ≡ running_to thread until (most_of self.old) self.old) }
    {
        let most = self.most();
        self.run_up_to(thread, until, most)
    }

    /// The same by at most so many steps.
    #[tactic(auto, using(crate::proofs::Going::to_ahead, crate::proofs::Stepping::to_there, crate::proofs::Stepping::to_done, crate::proofs::Stepping::to_waited, crate::proofs::Stepping::to_failed, crate::proofs::Stepping::to_end_done, crate::proofs::Stepping::to_end_waited, crate::proofs::Stepping::to_end_failed))]
    fn run_up_to(&mut self, thread: u8, until: Until, most: usize) -> Result<Outcome, AllocError>
        ensures { IfOk result (λ outcome. record { now = self.new; outcome = outcome }
            ≡ running_to thread until most self.old) }
    {
        let mut left = most;
        while left > 0 {
            let ahead = self.go_ahead(thread, left, until)?;
            if ahead.left == 0 {
                return Ok(Outcome::Fails);
            }
            let outcome = match ahead.last {
                Some(outcome) => outcome,
                None => {
                    if self.ends_before(thread, until) {
                        return Ok(Outcome::Done);
                    }
                    self.one(Event::Step { thread })?
                }
            };
            match outcome {
                Outcome::Done => {}
                Outcome::Waits | Outcome::Fails => return Ok(Outcome::Fails),
            }
            left = ahead.left - 1;
        }
        Ok(Outcome::Fails)
    }

    /// Whether the steps of a thread end before its next one.
    fn ends_before(&self, thread: u8, until: Until) -> bool
        ensures { result ≡ is_before until self.now.set (world_of self.now) thread }
    {
        is_before(&self.runner.machine, thread, until)
    }

    /// The number of a packet of the scenario, if it was issued.
    pub fn number_of(&self, packet: u16) -> Option<u64>
        ensures { result ≡ number_of self.now packet }
    {
        match self.packets.get(packet as usize) {
            Some(number) => *number,
            None => None,
        }
    }

    /// Whether a bug check of this number has stopped the run.
    pub fn has_bug(&self, number: u8) -> bool
        ensures { result ≡ list_any (is_bug number) (replies_of self.now) }
    {
        self.told.has_bug(number)
    }

    /// How the packet of a number has topped out, if it has.
    pub fn top_out(&self, number: u64) -> Option<TopOut>
        ensures { result ≡ top_out_of (replies_of self.now) number }
    {
        self.told.top_out(number)
    }

    /// The last reply.
    pub fn last(&self) -> Option<Reply>
        ensures { result ≡ last_of (replies_of self.now) }
    {
        self.told.last
    }

    /// Whether an audit finds nothing amiss, where what it needs is kept along the run.
    ///
    /// # Errors
    ///
    /// When memory runs out.
    pub(crate) fn is_fine(&self) -> Result<Option<bool>, AllocError>
        ensures { IfOk result (λ fine. IfSome fine (λ fine.
            fine ≡ is_none (amiss_in self.now.set (run_of self.now)))) }
    {
        self.runner.is_fine()
    }

    /// The machine.
    pub fn machine(&self) -> &Checked
        ensures set { result.now.set ≡ self.now.set }
        ensures world { result.now.world ≡ world_of self.now }
        ensures stopped { result.now.stopped ≡ (run_of self.now).stopped }
    {
        &self.runner.machine
    }

    /// How many threads there are.
    pub fn threads(&self) -> u8
        ensures threads { result ≡ self.now.threads }
        ensures some { 1 ≤ self.now.threads }
        ensures few { self.now.threads ≤ MAX_THREADS }
    {
        self.threads
    }

    /// How many events have happened.
    pub fn count(&self) -> usize
        ensures { result ≡ length self.now.events }
    {
        self.count
    }

    /// What has happened.
    pub fn past(&self) -> &[Repeated]
        ensures { events_of result.now ≡ self.now.events }
    {
        self.past.as_slice()
    }
}

/// The packet that an event starts, if it is a request's.
fn started_by(event: &Event, reply: &Reply) -> Option<u64>
    ensures { result ≡ started_by event.now reply.now }
{
    match (event, reply) {
        (Event::Issue { .. }, Reply::Started(packet)) => Some(*packet),
        _ => None,
    }
}

/// How an event went that has this reply.
fn outcome_of(reply: &Reply) -> Outcome
    ensures { result ≡ outcome_of reply.now }
{
    match reply {
        Reply::Started(_) | Reply::Stepped | Reply::Finished | Reply::Topped { .. } => {
            Outcome::Done
        }
        Reply::Waited => Outcome::Waits,
        Reply::Idle | Reply::Refused | Reply::Bug(_) | Reply::Wrong(_) => Outcome::Fails,
    }
}

/// How the event went that has this reply, if there is one.
fn outcome_if(reply: &Option<Reply>) -> Option<Outcome>
    ensures { result ≡ option_map outcome_of reply.now }
{
    match reply {
        Some(reply) => Some(outcome_of(reply)),
        None => None,
    }
}

/// How a cancel went that has this reply.
fn outcome_of_cancel(reply: &Reply) -> Outcome
    ensures { result ≡ outcome_of_cancel reply.now }
{
    match reply {
        Reply::Finished => Outcome::Fails,
        _ => outcome_of(reply),
    }
}
