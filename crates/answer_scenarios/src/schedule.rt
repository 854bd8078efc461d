//! The plain schedule of what a scenario makes happen, from its files to the exit status.

ghost use Rattle.std.specs.Prelude.{◌≡◌, ◌+◌, ◌⊎◌, []};
ghost use Rattle.drvhost_devices.specs.Device.{CanCount, Says};
ghost use Rattle.drvhost_devices.specs.Ends.{Answers, HoldsRun};
ghost use Rattle.drvhost_devices.specs.Fault.{Goes, reads_failed, writes_failed};
ghost use Rattle.drvhost_devices.specs.Ready.{CanAnswer};
ghost use Rattle.answer_scenarios.specs.Scenarios.{IsOfSources, IsScheduleOf, right_of};

use crate::telling::{Asked, Plan, tell_file};
use drvhost_devices::device::{Sink, Source};
use drvhost_devices::fault::{End, Fault, finish, no_memory};
use drvhost_devices::transfer::{read_whole, write_bytes};
use drvhost_devices::verification::Verification;
use report::lines::Lines;
use std::alloc::{AllocError, Global};

/// Plays a scenario over a driver set, and writes the schedule of what happens, up to the first
/// step that fails. Where verification is required, a refused set isn't run, and what is written is
/// the line of its refusal. The answer is the exit status, as that of a test. Faults are told on
/// the error writer.
pub fn schedule<S: Source, P: Source, O: Sink, E: Sink>(
    alloc: Global,
    verification: Verification,
    set: &mut S,
    scenario: &mut P,
    out: &mut O,
    err: &mut E,
) -> u8
    requires devices { CanAnswer O.Sink E.Sink (S.failures set.old) out.old err.old }
    requires scenario { CanCount (P.failures scenario.old) }
    ensures unread { (scenario.new ≡ scenario.old) ⊎ HoldsRun verification (S.supply set.old) }
    ensures answers { Answers (IsScheduleOf verification (S.supply set.old) (P.supply scenario.old))
        (S.failures set.old + P.failures scenario.old)
        (S.failures set.new + P.failures scenario.new)
        (O.failures out.old) (O.failures out.new) (O.contents out.old) (O.contents out.new)
        (Says (E.failures err.old) (E.failures err.new) (E.contents err.old) (E.contents err.new))
        result }
{
    let plan = Plan {
        asked: Asked::Schedule,
        verification,
    };
    match Lines::new(alloc) {
        Ok(mut lines) => {
            let end = write_told(alloc, plan, set, scenario, out);
            finish(end, &mut lines, err)
        }
        Err(AllocError) => no_memory(err),
    }
}

/// Writes what is told of the scenario of a source, played over the set of another.
fn write_told<S: Source, P: Source, O: Sink>(
    alloc: Global,
    plan: Plan<'_>,
    set: &mut S,
    scenario: &mut P,
    out: &mut O,
) -> Result<End, Fault>
    requires set { CanCount (S.failures set.old) }
    requires scenario { CanCount (P.failures scenario.old) }
    requires out { CanCount (O.failures out.old) }
    ensures unread { (scenario.new ≡ scenario.old)
        ⊎ HoldsRun plan.entry.verification (S.supply set.old) }
    ensures goes { Goes (IsOfSources (right_of plan.entry.asked) plan.entry.verification
        (S.supply set.old) (P.supply scenario.old)) (O.contents out.old) (O.contents out.new)
        [] [] result }
    ensures reads { S.failures set.new + P.failures scenario.new
        ≡ S.failures set.old + P.failures scenario.old + reads_failed result }
    ensures writes { O.failures out.new ≡ O.failures out.old + writes_failed result }
{
    let bytes = read_whole(alloc, set)?;
    let told = tell_file(alloc, plan, bytes.as_slice(), scenario)?;
    write_bytes(told.text.as_slice(), out)?;
    Ok(told.end)
}
