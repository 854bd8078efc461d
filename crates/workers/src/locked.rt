//! The core under its lock, with the seats and takers of its workers.

ghost use Rattle.std.specs.Prelude.{◌≡◌, ◌<◌, ◌≤◌, ◌+◌, ℕ, List, [], None, Some, length, slice_get};
ghost use Rattle.std.specs.List.{range_with_len};
ghost use Rattle.std.specs.Vec.{vec_capacity};
ghost use Rattle.hostcore.specs.Core.{CoreState};
ghost use Rattle.intake.specs.declared.limits.TheConstants.{MAX_TAKERS};
ghost use Rattle.intake.specs.Ends.{AreTakersOf, TakerState};
ghost use Rattle.workers.specs.Ended.{HaveEnded};
ghost use Rattle.workers.specs.Kept.{AreGiven, held_by, kept_of, no_core};
ghost use Rattle.workers.specs.Serves.{Serves};
ghost use Rattle.workers.specs.Standing.{AreWaiting, IsWaiting};
ghost use Rattle.workers.specs.Turned.{Progressed};

use crate::ending::{End, Ends, Gone};
use crate::seating::give_back;
use crate::served::Served;
use crate::standing::{Marks, none_goes_on};
use crate::turns::{Turn, take_turn};
use hostcore::{Core, Seat, Taken};
use intake::{Intake, Taker};
use model::limits::MAX_THREADS;
use std::marker::{Brand, Model, PhantomData};
use std::sync::Wait;
use std::sync::ledger::{Book, Ledger, Share};

/// A command that a worker had taken when it met the full history.
pub struct Held {
    pub worker: usize,
    pub taken: Taken,
}

/// What a call of `serve` began with. Each call picks it. Its ledger counts the workers that were
/// started.
pub trait Beginning: Ledger {
    ghost core: { CoreState };

    ghost takers: { List TakerState };
}

impl Beginning for Brand {
    ghost core = { no_core };

    ghost takers = { [] };
}

/// What the workers of one call share.
pub struct Service<B: Beginning> {
    core: Core,
    seats: Vec<Seat>,
    takers: Vec<Taker>,
    started: usize,
    book: Book<B>,
    held: Option<Held>,
    full: bool,
    /// The threads that are known to wait, as a step of them has shown since the last entry.
    waiting: Marks,
    /// The threads whose workers have ended while these waited.
    gone: Gone,
    of: PhantomData<B>,
}

impl<B: Beginning> Model for Service<B> {
    ghost use Rattle.std.specs.Prelude.{◌≡◌};
    ghost use Rattle.workers.specs.Kept.{Keeps, Station, station};
    ghost use Rattle.workers.specs.Standing.{AreWaiting};

    ghost Value = { Station };

    ghost view = { λ s. station s.core s.seats.items s.takers.items s.started s.held s.full };

    ghost invariant = { λ s. Keeps B.core B.takers
        (station s.core s.seats.items s.takers.items s.started s.held s.full)
        × (s.started ≡ s.book.total) × AreWaiting s.core s.waiting };
}

/// What a worker's turn came to, for the worker.
pub enum Progress {
    /// There is one entry more. The worker's seat has counted so many.
    Advanced(u64),
    /// Nothing changed, and there may be something to do later.
    Stalled,
    /// The worker has nothing left to do: nothing was entered.
    Over(End),
}

impl<B: Beginning> Service<B> {
    /// A service that begins: the core's first seats are given out, and no worker is started.
    pub fn open(core: Core, seats: Vec<Seat>, takers: Vec<Taker>, book: Book<B>) -> Service<B>
        requires given { AreGiven (length B.takers) B.core core }
        requires seats { seats.items ≡ range_with_len 0 (length B.takers) }
        requires takers { takers.items ≡ B.takers }
        requires none { book.total ≡ 0 }
    {
        Service {
            core,
            seats,
            takers,
            started: 0,
            book,
            held: None,
            full: false,
            waiting: [false; MAX_THREADS],
            gone: Gone::none(),
            of: PhantomData,
        }
    }

    /// The next worker was started: its turns are taken from now on.
    pub fn admit(&mut self, all: &mut Share<B>)
        requires all { all.old.parts ≡ B.parts }
        requires part { 0 < all.old.parts }
        requires next { all.old.amount < length B.takers }
        requires few { length B.takers ≤ MAX_TAKERS }
        ensures parts { all.new.parts ≡ all.old.parts }
        ensures amount { all.new.amount ≡ all.old.amount + 1 }
    {
        self.book.audit(all);
        self.book.add(all, 1);
        self.started += 1;
    }

    /// A turn of the worker of a number. Nothing is done for one that was not started.
    pub fn turn<R: Wait>(&mut self, rt: &R, intake: &Intake, number: usize) -> Progress
        requires number { number < length B.takers }
        requires few { length B.takers ≤ MAX_TAKERS }
        requires takers { AreTakersOf intake.now B.takers }
        ensures { Progressed number self.old.core self.new.core result }
    {
        if self.full {
            return Progress::Over(End::full(&self.core, number));
        }
        if number >= self.started {
            return Progress::Stalled;
        }
        let seat = &mut self.seats[number];
        let taker = &mut self.takers[number];
        match take_turn(rt, &mut self.core, seat, taker, intake) {
            Turn::Entered => {
                self.waiting = [false; MAX_THREADS];
                Progress::Advanced(self.core.counted(&self.seats[number]))
            }
            Turn::Waits => {
                let waiting = &mut self.waiting;
                wait::<B>(&self.core, &self.seats, waiting, &mut self.gone, number)
            }
            Turn::Rests => Progress::Stalled,
            Turn::Ended(end) => Progress::Over(end),
            Turn::Full(taken) => {
                self.full = true;
                hold(&mut self.held, number, taken);
                Progress::Over(End::full(&self.core, number))
            }
        }
    }

    /// The service ends with its workers. What is held goes into a list that has nothing and has
    /// room for it.
    pub fn close(self, mut all: Share<B>, ends: Ends, mut list: Vec<Taken>) -> Served
        requires all { all.parts ≡ B.parts }
        requires ends { HaveEnded all.amount ends }
        requires empty { list.items ≡ [] }
        requires room { 0 < vec_capacity list }
        requires few { length B.takers ≤ MAX_TAKERS }
        requires free { (i : ℕ) → i < length B.takers → slice_get B.core.seats i ≡ Some None }
        ensures { Serves B.core B.takers result }
    {
        let Service {
            mut core,
            seats,
            takers,
            started: _,
            mut book,
            held,
            full,
            waiting: _,
            gone: _,
            of: _,
        } = self;
        book.audit(&mut all);
        let counts = give_back(&mut core, seats);
        list_held(held, &mut list);
        Served {
            core,
            takers,
            counts,
            held: list,
            started: ends.started(),
            ends,
            full,
        }
    }
}

/// The thread of a worker waits: it is marked. Where of all workers' threads none goes on, no
/// worker can ever change anything again for those that wait, and the worker has nothing left to
/// do.
fn wait<B: Beginning>(
    core: &Core,
    seats: &[Seat],
    waiting: &mut Marks,
    gone: &mut Gone,
    number: usize,
) -> Progress
    requires seats { seats.now ≡ range_with_len 0 (length B.takers) }
    requires few { length B.takers ≤ MAX_TAKERS }
    requires number { number < length B.takers }
    requires waits { IsWaiting core.now number }
    requires marked { AreWaiting core.now waiting.old }
    ensures marked { AreWaiting core.now waiting.new }
    ensures progress { Progressed number core.now core.now result }
{
    waiting[number] = true;
    if !none_goes_on(core, seats, waiting, gone) {
        return Progress::Stalled;
    }
    let end = End::stuck::<B>(core, gone, number);
    gone.add(&end);
    Progress::Over(end)
}

/// Puts a command that is held into a list that has none.
fn list_held(held: Option<Held>, list: &mut Vec<Taken>)
    requires empty { list.old.items ≡ [] }
    requires room { 0 < vec_capacity list.old }
    ensures { list.new.items ≡ kept_of held }
{
    if let Some(Held { worker: _, taken }) = held {
        list.push_reserved(taken);
    }
}

/// Holds a command that a worker had taken, if it had one, where none is held.
fn hold(held: &mut Option<Held>, worker: usize, taken: Option<Taken>)
    requires none { held.old ≡ None }
    ensures { held.new ≡ held_by worker taken }
{
    let Some(taken) = taken else {
        return;
    };
    match std::mem::replace(held, Some(Held { worker, taken })) {
        None => {}
        Some(Held { worker: _, taken }) => {
            let _command = taken.give_up();
            unreachable!()
        }
    }
}
