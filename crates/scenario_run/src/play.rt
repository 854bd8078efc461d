//! The steps of a scenario, one after another.

ghost use Rattle.std.specs.Prelude.{◌≡◌, IfOk};
ghost use Rattle.scenario_run.specs.Acting.{acted, expected, passes, played};
ghost use Rattle.scenario_run.specs.Holding.{holds};

use crate::holding::holds;
use crate::playing::{Outcome, Playing};
use crate::turns::run_all;
use model::event::Event;
use scenario_expected::expectation::Expectation;
use scenario_steps::scenario::{Action, Step};
use scenario_steps::steps::{Kind, Steps};
use scenario_world::until::Until;
use std::alloc::{AllocError, Global};

/// Plays the steps of a scenario, up to the first that fails, and answers that one, if there is
/// one.
///
/// # Errors
///
/// When memory runs out.
pub fn play(alloc: Global, playing: &mut Playing, steps: &Steps) -> Result<Option<Step>, AllocError>
    ensures { IfOk result (λ failed.
        record { now = playing.new; failed = failed } ≡ played playing.old steps.now) }
{
    if steps.has(Kind::Audit) {
        playing.keep_ledger()?;
    }
    playing.make_room(steps.len())?;
    play_on(alloc, playing, steps)
}

/// Plays the steps from here on.
#[tactic(auto, using(crate::proofs::Playings::played_on, crate::proofs::Playings::played_stop))]
fn play_on(alloc: Global, playing: &mut Playing, steps: &Steps) -> Result<Option<Step>, AllocError>
    ensures { IfOk result (λ failed.
        record { now = playing.new; failed = failed } ≡ played playing.old steps.now) }
{
    for place in 0..steps.len() {
        let step = steps.at(place);
        let outcome = act(alloc, playing, &step.action)?;
        if !passes(step.may, outcome) {
            return Ok(Some(step));
        }
    }
    Ok(None)
}

/// Whether the next step begins behind one that may fail or not, and went so.
pub fn passes(may: bool, outcome: Outcome) -> bool
    ensures { result ≡ passes may outcome }
{
    match outcome {
        Outcome::Done | Outcome::Waits => true,
        Outcome::Fails => may,
    }
}

/// Does what a step says.
///
/// # Errors
///
/// When memory runs out.
pub fn act(alloc: Global, playing: &mut Playing, action: &Action) -> Result<Outcome, AllocError>
    ensures { IfOk result (λ outcome.
        record { now = playing.new; outcome = outcome } ≡ acted playing.old action.now) }
{
    match *action {
        Action::Issue {
            thread,
            device,
            major,
            argument,
        } => playing.issue(Event::Issue {
            thread,
            device,
            major,
            argument,
        }),
        Action::Cancel {
            thread,
            packet,
            level,
        } => playing.cancel(thread, packet, level),
        Action::Interrupt(device) => playing.one(Event::Interrupt { device }),
        Action::Dpc { thread, device } => playing.one(Event::Dpc { thread, device }),
        Action::StartIo { thread, device } => playing.one(Event::StartIo { thread, device }),
        Action::Steps { thread, count } => playing.steps(thread, count),
        Action::Run(thread) => playing.run(thread),
        Action::RunTo { thread, spot } => playing.run_to(thread, Until::At(spot)),
        Action::RunToRelease { thread, lock } => playing.run_to(thread, Until::Release(lock)),
        Action::RunAll => run_all(alloc, playing),
        Action::Together { .. } => Ok(Outcome::Fails),
        Action::Expect(expectation) => expect(alloc, playing, &expectation),
    }
}

/// Looks whether what is expected holds.
fn expect(
    alloc: Global,
    playing: &Playing,
    expectation: &Expectation,
) -> Result<Outcome, AllocError>
    ensures { IfOk result (λ outcome. record { now = playing.now; outcome = outcome }
        ≡ expected playing.now (holds playing.now expectation.now)) }
{
    if holds(alloc, playing, expectation)? {
        Ok(Outcome::Done)
    } else {
        Ok(Outcome::Fails)
    }
}
