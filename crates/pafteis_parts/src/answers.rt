//! The program's answers, over bytes in memory. A call may answer that no memory was found,
//! whatever it is asked.

ghost use Rattle.std.specs.Prelude.{IfOk};
ghost use Rattle.drvhost_devices.specs.Answer.{IsRuleExplained};
ghost use Rattle.drvhost_devices.specs.Device.{Bytes};
ghost use Rattle.drvhost_devices.specs.Ends.{IsCheckOf, IsListOf, IsRewriteOf, IsTraceOf};
ghost use Rattle.answer_hunts.specs.Hunt.{IsHuntOf};
ghost use Rattle.answer_mends.specs.Mend.{IsMendOf};
ghost use Rattle.answer_explain.specs.Explained.{IsExplainedOf};
ghost use Rattle.pafteis_parts.specs.Shown.{IsRunAs};

use answer::as_text::Text;
use answer::run::ToRun;
use answer_mends::mend::MendOptions;
use answer_runs::trace::trace;
use answer_views::draw::Drawn;
use answer_views::tell::{InWords, Telling};
use drvhost_devices::device::{Reader, Source, Writer};
use drvhost_devices::extent::Extent;
use drvhost_devices::figure::Figure;
use drvhost_devices::told::{Told, collected};
use drvhost_devices::verification::Verification;
use hunt_facts::reach::Reach;
use model::abs::Rule;
use model::memory::OutOfMemory;
use std::alloc::{AllocError, Global};

/// The verdict on the set that a text or an image names.
pub fn check(alloc: Global, set: &[u8]) -> Result<Told, OutOfMemory>
    ensures { IfOk result (IsCheckOf (Bytes set.now)) }
{
    Ok(answer::check::check(alloc, set)?)
}

/// The same, explained in words: of its first fault, or of each routine's.
pub fn explain(alloc: Global, extent: Extent, set: &[u8]) -> Result<Told, OutOfMemory>
    ensures { IfOk result (IsExplainedOf extent (Bytes set.now)) }
{
    Ok(answer_explain::explaining::explain(alloc, extent, set)?)
}

/// A rule in words.
pub fn explain_rule(alloc: Global, rule: Rule) -> Result<Told, OutOfMemory>
    ensures { IfOk result (IsRuleExplained rule) }
{
    Ok(answer_explain::rule::explain_rule(alloc, rule)?)
}

/// A run of a set by a schedule, by how it is shown.
#[derive(Clone, Copy)]
pub enum Run {
    /// Its trace.
    Trace(Verification),
    /// In words.
    Tell(Telling),
    /// As a picture.
    Draw(Verification),
}

/// A run of a set by a schedule.
pub fn run_as(alloc: Global, set: &[u8], schedule: &[u8], run: Run) -> Result<Told, OutOfMemory>
    ensures { IfOk result (IsRunAs run (Bytes set.now) (Bytes schedule.now)) }
{
    match run {
        Run::Trace(verification) => Ok(traced(alloc, verification, set, schedule)?),
        Run::Tell(telling) => {
            let told = ToRun {
                job: InWords {
                    manner: telling.manner,
                },
                form: Text,
                verification: telling.verification,
                set: "",
                input: "",
            };
            Ok(told.answer(alloc, set, schedule)?)
        }
        Run::Draw(verification) => {
            let figure = Figure::Picture;
            let drawn = ToRun {
                job: Drawn { figure },
                form: Text,
                verification,
                set: "",
                input: "",
            };
            Ok(drawn.answer(alloc, set, schedule)?)
        }
    }
}

/// The trace of a run. What fails in memory is a growth alone.
fn traced(
    alloc: Global,
    verification: Verification,
    set: &[u8],
    schedule: &[u8],
) -> Result<Told, AllocError>
    ensures { IfOk result (IsTraceOf verification (Bytes set.now) (Bytes schedule.now)) }
{
    let mut source = Reader::new(Some(set));
    let mut events = Reader::new(Some(schedule));
    let mut output = Writer::new(Vec::new(alloc));
    let mut errors = Writer::new(Vec::new(alloc));
    let exit = trace(
        alloc,
        &mut source,
        &mut events,
        verification,
        &mut output,
        &mut errors,
    );
    if source.failures() > 0 || events.failures() > 0 {
        return Err(AllocError);
    }
    collected(exit, 0, output, errors)
}

/// A shortest run of a set that ends amiss, as a schedule, or that none is within reach.
pub fn hunt(alloc: Global, reach: Reach, set: &[u8]) -> Result<Told, OutOfMemory>
    ensures { IfOk result (IsHuntOf reach (Bytes set.now)) }
{
    Ok(answer_hunts::hunt::hunt(alloc, reach, set)?)
}

/// Mends of a set's text, as diffs.
pub fn mend(alloc: Global, asked: MendOptions, set: &[u8]) -> Result<Told, OutOfMemory>
    ensures { IfOk result (IsMendOf asked (Bytes set.now)) }
{
    Ok(answer_mends::mend::mend(alloc, asked, set)?)
}

/// The listing of a set.
pub fn list(alloc: Global, set: &[u8]) -> Result<Told, OutOfMemory>
    ensures { IfOk result (IsListOf (Bytes set.now)) }
{
    Ok(answer::list::list(alloc, set)?)
}

/// The image of a set, in the second edition.
pub fn rewrite(alloc: Global, set: &[u8]) -> Result<Told, OutOfMemory>
    ensures { IfOk result (IsRewriteOf (Bytes set.now)) }
{
    Ok(answer_explain::rewriting::rewritten(alloc, set)?)
}
