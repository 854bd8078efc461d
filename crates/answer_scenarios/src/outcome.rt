//! Whether all that a scenario expects holds, in one line.

ghost use Rattle.std.specs.Prelude.{◌≡◌, IfOk};
ghost use Rattle.drvhost_devices.specs.Answer.{ended};
ghost use Rattle.answer_scenarios.specs.Scenarios.{IsOutcome, failure, ok_line};

use crate::failure::failure_words;
use crate::telling::Told;
use drvhost_devices::fault::End;
use interleave_texts::appending::{add, add_numbered};
use scenario_run::playing::Playing;
use scenario_steps::scenario::Step;
use std::alloc::{AllocError, Global};

/// That all holds in the scenario of a name, or the first step that fails.
pub(crate) fn tell_outcome(
    alloc: Global,
    name: &str,
    source: &[u8],
    text: &[u8],
    playing: &Playing,
    failed: Option<Step>,
) -> Result<Told, AllocError>
    ensures { IfOk result (λ told. IsOutcome name.now failed (ended told.end told.text.items)) }
{
    match failed {
        Some(step) => {
            let words = failure_words(alloc, source, text, playing, &step)?;
            tell_failure(alloc, name, step.line, words.as_bytes())
        }
        None => tell_ok(alloc, name),
    }
}

/// That all holds in the scenario of a name.
fn tell_ok(alloc: Global, name: &str) -> Result<Told, AllocError>
    ensures { IfOk result (λ told. (told.end ≡ End.Complete)
        × (told.text.items ≡ ok_line name.now)) }
{
    let mut text = Vec::new(alloc);
    add(&mut text, b"ok ")?;
    add(&mut text, name.as_bytes())?;
    add(&mut text, b"\n")?;
    Ok(Told {
        text,
        end: End::Complete,
    })
}

/// The number of the line of a step that fails in the scenario of a name, and these words on it.
fn tell_failure(alloc: Global, name: &str, line: u64, words: &[u8]) -> Result<Told, AllocError>
    ensures { IfOk result (λ told. (told.end ≡ End.Stopped)
        × (told.text.items ≡ failure name.now line words.now)) }
{
    let mut text = Vec::new(alloc);
    add(&mut text, b"failed ")?;
    add(&mut text, name.as_bytes())?;
    add_numbered(&mut text, b" line ", line, b":")?;
    add(&mut text, words)?;
    add(&mut text, b"\n")?;
    Ok(Told {
        text,
        end: End::Stopped,
    })
}
