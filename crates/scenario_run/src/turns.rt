//! Threads that make steps in turn.

ghost use Rattle.std.specs.Prelude.{◌≡◌, ◌<◌, ◌-◌, IfOk};
ghost use Rattle.scenario_run.specs.Playing.{world_of};
ghost use Rattle.scenario_run.specs.Turns.{AreRounds, IsRound, IsTurn, Rests, after_round, round};
ghost use Rattle.scenario_run.specs.Turns.{run_all};
ghost use Rattle.scenario_world.specs.Going.{IsLone};

use crate::playing::{Outcome, Playing};
use model::event::Event;
use scenario_world::goers::{Awaited, Goers, are_owned, goers_among};
use scenario_world::going::{Going, goes_on, who_goes_on};
use scenario_world::until::lone_until;
use std::alloc::{AllocError, Global};

/// How far rounds have gone.
#[derive(Clone, Copy)]
pub(crate) enum Progress {
    /// They are over, and went so.
    Over(Outcome),
    /// So many are left.
    Left(usize),
}

/// How a round went.
#[derive(Clone, Copy)]
pub(crate) enum Round {
    /// No thread goes on.
    Over,
    /// A step failed.
    Failed,
    /// All made their turns, and who goes on is to be asked anew.
    Changed,
    /// All made their turns, and none goes on beside those that did before.
    Same,
}

/// How the turn of a thread went.
#[derive(Clone, Copy)]
pub(crate) enum Turn {
    /// It doesn't go on.
    Skipped,
    /// Its step failed.
    Failed,
    /// It made a step, behind which the locks that others wait for have the same owners.
    Made,
    /// It made one behind which one of these has another owner, or none.
    Freed,
}

/// The threads make steps in turn, the lowest first, until each is idle or waits.
pub(crate) fn run_all(alloc: Global, playing: &mut Playing) -> Result<Outcome, AllocError>
    ensures { IfOk result (λ outcome.
        record { now = playing.new; outcome = outcome } ≡ run_all playing.old) }
{
    let mut left = playing.most();
    while left > 0 {
        match some_rounds(alloc, playing, left)? {
            Progress::Over(outcome) => return Ok(outcome),
            Progress::Left(rest) => left = rest,
        }
    }
    Ok(Outcome::Fails)
}

/// One of so many rounds, or more.
#[tactic(auto, using(crate::proofs::Turning::rounds_over))]
fn some_rounds(alloc: Global, playing: &mut Playing, most: usize) -> Result<Progress, AllocError>
    requires { 0 < most }
    ensures { IfOk result (AreRounds most playing.old playing.new) }
{
    match who_goes_on(playing.machine(), playing.threads()) {
        Going::Nobody => Ok(Progress::Over(Outcome::Done)),
        Going::One(thread) => lone_rounds(playing, thread, most),
        Going::Several => several_rounds(alloc, playing, most),
    }
}

/// Those in which more than one thread makes its turn, and the one behind them.
fn several_rounds(alloc: Global, playing: &mut Playing, most: usize) -> Result<Progress, AllocError>
    requires { 0 < most }
    ensures { IfOk result (AreRounds most playing.old playing.new) }
{
    let goers = goers_among(alloc, playing.machine(), playing.threads())?;
    let mut left = most;
    while left > 0 {
        match make_round(playing, &goers)? {
            Round::Over => return Ok(Progress::Over(Outcome::Done)),
            Round::Failed => return Ok(Progress::Over(Outcome::Fails)),
            Round::Changed => return Ok(Progress::Left(left - 1)),
            Round::Same => left -= 1,
        }
    }
    Ok(Progress::Over(Outcome::Fails))
}

/// Those in which one thread alone goes on, and the one in which another does so too.
fn lone_rounds(playing: &mut Playing, thread: u8, most: usize) -> Result<Progress, AllocError>
    requires some { 0 < most }
    requires lone { IsLone playing.old.set (world_of playing.old) playing.old.threads thread }
    ensures { IfOk result (AreRounds most playing.old playing.new) }
{
    let until = lone_until(playing.machine(), thread, playing.threads());
    let ahead = playing.go_ahead(thread, most, until)?;
    let outcome = match ahead.last {
        Some(Outcome::Fails) => Outcome::Fails,
        Some(Outcome::Done | Outcome::Waits) => turns_from(playing, thread + 1)?,
        None if ahead.left < most => return Ok(Progress::Left(ahead.left)),
        None => turns_from(playing, 0)?,
    };
    Ok(after_round(outcome, ahead.left))
}

/// How far rounds have gone behind one that went so, where so many were left.
fn after_round(outcome: Outcome, left: usize) -> Progress
    requires { 0 < left }
    ensures { result ≡ after_round outcome left }
{
    match outcome {
        Outcome::Fails => Progress::Over(Outcome::Fails),
        Outcome::Done | Outcome::Waits => Progress::Left(left - 1),
    }
}

/// A round, where none goes on beside these while the locks that others wait for keep their owners.
fn make_round(playing: &mut Playing, goers: &Goers) -> Result<Round, AllocError>
    requires { Rests goers.now playing.old }
    ensures { IfOk result (IsRound goers.now playing.old playing.new) }
{
    let mut made = 0_usize;
    for thread in goers.threads.as_slice() {
        match make_turn(playing, *thread, goers.awaited.as_slice())? {
            Turn::Skipped => {}
            Turn::Failed => return Ok(Round::Failed),
            Turn::Made => made += 1,
            Turn::Freed => match turns_from(playing, *thread + 1)? {
                Outcome::Fails => return Ok(Round::Failed),
                Outcome::Done | Outcome::Waits => return Ok(Round::Changed),
            },
        }
    }
    Ok(match made {
        0 => Round::Over,
        1 => Round::Changed,
        _ => Round::Same,
    })
}

/// The turns of the threads from one on, the lowest first.
fn turns_from(playing: &mut Playing, first: u8) -> Result<Outcome, AllocError>
    ensures { IfOk result (λ outcome. record { now = playing.new; outcome = outcome }
        ≡ round (playing.old.threads - first) first playing.old) }
{
    let threads = playing.threads();
    for thread in first..threads {
        if let Turn::Failed = make_turn(playing, thread, &[])? {
            return Ok(Outcome::Fails);
        }
    }
    Ok(Outcome::Done)
}

/// The turn of a thread, where others wait for these locks.
fn make_turn(playing: &mut Playing, thread: u8, awaited: &[Awaited]) -> Result<Turn, AllocError>
    ensures { IfOk result (IsTurn awaited.now thread playing.old playing.new) }
{
    if !goes_on(playing.machine(), thread) {
        return Ok(Turn::Skipped);
    }
    if let Outcome::Fails = playing.one(Event::Step { thread })? {
        return Ok(Turn::Failed);
    }
    if are_owned(playing.machine(), awaited) {
        Ok(Turn::Made)
    } else {
        Ok(Turn::Freed)
    }
}
