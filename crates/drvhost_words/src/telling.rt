//! Told runs, in colour or not.

ghost use Rattle.std.specs.Prelude.{◌≡◌, ◌+◌, ◌⊎◌, IfErr, IfOk};
ghost use Rattle.drvhost_devices.specs.Device.{CanCount};
ghost use Rattle.drvhost_devices.specs.Ends.{AnswersOver, HoldsRun};
ghost use Rattle.drvhost_devices.specs.Fault.{reads_failed};
ghost use Rattle.drvhost_devices.specs.Ready.{CanAnswer};
ghost use Rattle.drvhost_many.specs.Painted.{IsShown};
ghost use Rattle.answer_views.specs.Told.{IsTellOf};

use answer::as_text::Text;
use answer::deliver::{tell_unread, write_answer};
use answer::run::ToRun;
use answer_views::tell::InWords;
use drvhost_devices::coloring::Coloring;
use drvhost_devices::device::{Sink, Source};
use drvhost_devices::fault::Fault;
use drvhost_devices::manner::Manner;
use drvhost_devices::told::Told;
use drvhost_devices::verification::Verification;
use drvhost_many::painting::colored;
use std::alloc::Global;

/// How a run is told, and whether in colour.
#[derive(Clone, Copy)]
pub(crate) struct Shown {
    pub(crate) verification: Verification,
    pub(crate) manner: Manner,
    pub(crate) coloring: Coloring,
}

/// Tells the run of the set of a source by the schedule of another one, in colour where it is
/// always chosen: with the paint taken out it is the same.
pub(crate) fn tell_shown<S: Source, P: Source, O: Sink, E: Sink>(
    alloc: Global,
    shown: Shown,
    set: &mut S,
    schedule: &mut P,
    out: &mut O,
    err: &mut E,
) -> u8
    requires devices { CanAnswer O.Sink E.Sink (S.failures set.old) out.old err.old }
    requires schedule { CanCount (P.failures schedule.old) }
    ensures unread { (schedule.new ≡ schedule.old)
        ⊎ HoldsRun shown.verification (S.supply set.old) }
    ensures answers { AnswersOver O.Sink E.Sink (IsShown shown.coloring
        (IsTellOf shown.verification shown.manner (S.supply set.old) (P.supply schedule.old)))
        (S.failures set.old + P.failures schedule.old)
        (S.failures set.new + P.failures schedule.new)
        out.old out.new err.old err.new result }
{
    match answer_shown(alloc, shown, set, schedule) {
        Ok(told) => write_answer(Ok(told), out, err),
        Err(fault) => tell_unread(fault, err),
    }
}

/// What is told of it.
fn answer_shown<S: Source, P: Source>(
    alloc: Global,
    shown: Shown,
    set: &mut S,
    schedule: &mut P,
) -> Result<Told, Fault>
    requires set { CanCount (S.failures set.old) }
    requires schedule { CanCount (P.failures schedule.old) }
    ensures unread { (schedule.new ≡ schedule.old)
        ⊎ HoldsRun shown.verification (S.supply set.old) }
    ensures told { IfOk result (IsShown shown.coloring
        (IsTellOf shown.verification shown.manner (S.supply set.old) (P.supply schedule.old))) }
    ensures fault { IfErr result (λ fault. (fault ≡ Fault.Read) ⊎ (fault ≡ Fault.Memory)) }
    ensures reads { S.failures set.new + P.failures schedule.new
        ≡ (S.failures set.old + P.failures schedule.old) + reads_failed result }
{
    let run = ToRun {
        job: InWords {
            manner: shown.manner,
        },
        form: Text,
        verification: shown.verification,
        set: "",
        input: "",
    };
    let plain = run.read(alloc, set, schedule)?;
    Ok(colored(alloc, shown.coloring, plain)?)
}
