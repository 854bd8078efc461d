//! Steps that expect a verdict on the set.

ghost use Rattle.std.specs.Prelude.{◌≡◌, IfOk};
ghost use Rattle.std.specs.List.{list_all};
ghost use Rattle.scenario_steps.specs.Judging.{expect_verdict_alone, expects_verdict, judged};
ghost use Rattle.scenario_steps.specs.Judging.{judged_action, judged_step};

use crate::scenario::{Action, Step};
use crate::steps::Steps;
use model::abs::Refusal;
use scenario_expected::expectation::Expectation;
use std::alloc::{AllocError, Global};

/// Whether a step expects a verdict, which isn't known yet.
pub(crate) fn expects_verdict(step: &Step) -> bool
    ensures { result ≡ expects_verdict step.now }
{
    match step.action {
        Action::Expect(Expectation::Verdict(_)) => true,
        _ => false,
    }
}

/// Whether steps expect nothing but a verdict, and there are some: then nothing happens in them.
pub fn expect_verdict_alone(steps: &Steps) -> bool
    ensures { result ≡ expect_verdict_alone steps.now }
{
    all_expect_verdict(steps) && steps.len() > 0
}

/// Whether each step expects a verdict.
fn all_expect_verdict(steps: &Steps) -> bool
    ensures { result ≡ list_all expects_verdict steps.now }
{
    for place in 0..steps.len() {
        if !expects_verdict(&steps.at(place)) {
            return false;
        }
    }
    true
}

/// The same steps where it is known what the verdict found: the first fault of the set, or none.
///
/// # Errors
///
/// When memory runs out.
pub fn judged(alloc: Global, steps: &Steps, found: Option<Refusal>) -> Result<Steps, AllocError>
    ensures { IfOk result (λ all. all ≡ judged found steps.now) }
{
    let mut all = Steps::with_capacity(alloc, steps.len())?;
    for place in 0..steps.len() {
        all.push(judged_step(&steps.at(place), found))?;
    }
    Ok(all)
}

/// The same step where that is known.
fn judged_step(step: &Step, found: Option<Refusal>) -> Step
    ensures { result ≡ judged_step found step.now }
{
    Step {
        line: step.line,
        may: step.may,
        action: judged_action(&step.action, found),
    }
}

fn judged_action(action: &Action, found: Option<Refusal>) -> Action
    ensures { result ≡ judged_action found action.now }
{
    match *action {
        Action::Expect(Expectation::Verdict(expected)) => {
            Action::Expect(Expectation::Judged { expected, found })
        }
        other => other,
    }
}
