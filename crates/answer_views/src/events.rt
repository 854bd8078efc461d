//! The events of a run, as an observer of it has them told in JSON.

ghost use Rattle.std.specs.Prelude.{[], IfOk};
ghost use Rattle.answer_views.specs.InJson.{IsRunToldInJson, IsTelling};
ghost use Rattle.drvhost_devices.specs.Answer.{ended};
ghost use Rattle.interleave.specs.Listing.{IsWithinLimits};
ghost use Rattle.model.specs.Machine.{ShowsWhole};

use crate::telling::end_of;
use answer::as_text::ended;
use answer_runs::follow::is_last;
use answer_runs::watching::{Observer, Taken, observe};
use checked::Checked;
use drvhost_devices::fault::{End, Fault};
use drvhost_devices::manner::Strictness;
use drvhost_devices::told::Told;
use interleave::schedule::Schedule;
use model::event::Event;
use report_json::json_lines::JsonLines;
use std::alloc::{AllocError, Global};
use std::mem::{drop, replace};
use tell_audit::findings::Findings;
use tell_json::audit::ToldAudit;
use tell_json::telling::Telling;

/// A run as it is told.
#[derive(Drop)]
struct Watch<'a> {
    telling: Telling<'a>,
}

impl<'a> Observer<Checked> for Watch<'a> {
    ghost use Rattle.std.specs.Prelude.{⊤};
    ghost use Rattle.answer_views.specs.InJson.{IsTelling};

    ghost tells = { λ start now. IsTelling now.telling };

    ghost breaks = { λ start now fault set threads past. ⊤ };

    fn watch(
        &mut self,
        machine: &mut Checked,
        event: &Event,
        _count: usize,
    ) -> Result<Taken, Fault> {
        let reply = self.telling.tell(machine, event)?;
        Ok(Taken {
            count: 1,
            ended: is_last(&reply),
        })
    }
}

/// Tells the run of a machine by a schedule, up to an event that stops it, and its audit: with the
/// names and the lines of a text that names its set.
pub(crate) fn tell_events(
    alloc: Global,
    source: &[u8],
    machine: &mut Checked,
    schedule: &Schedule,
    strictness: Strictness,
) -> Result<Told, AllocError>
    requires begun { ShowsWhole machine.old schedule.now.threads [] }
    requires limits { IsWithinLimits schedule.now }
    ensures { IfOk result (IsRunToldInJson strictness machine.old.set schedule.now.threads
        schedule.now.events) }
{
    let telling = Telling::of(alloc, source, schedule.threads)?;
    let mut watch = Watch { telling };
    let end = watch.tell_all(alloc, machine, schedule, strictness);
    let lines = replace(&mut watch.telling.lines, JsonLines::new(alloc));
    drop(watch);
    Ok(ended(alloc, end?, lines.into_bytes()))
}

impl<'a> Watch<'a> {
    /// Tells the whole run of a machine of which nothing was told yet, and its audit, and answers
    /// how the job ends.
    fn tell_all(
        &mut self,
        alloc: Global,
        machine: &mut Checked,
        schedule: &Schedule,
        strictness: Strictness,
    ) -> Result<End, AllocError>
        requires begun { ShowsWhole machine.old schedule.now.threads [] }
        requires limits { IsWithinLimits schedule.now }
        requires fresh { IsTelling self.old.telling machine.old.set schedule.now.threads [] }
        ensures { IfOk result (λ end. IsRunToldInJson strictness machine.old.set
            schedule.now.threads schedule.now.events (ended end self.new.telling.lines)) }
    {
        let Ok(end) = observe(machine, schedule, self) else {
            return Err(AllocError);
        };
        let telling = &mut self.telling;
        let found = Findings::of(alloc, machine, &telling.ledger)?;
        telling.lines.add(&ToldAudit { found: &found })?;
        let strictly = strictness.fails(telling.refused);
        Ok(end_of(end, strictly, found.any()))
    }
}
