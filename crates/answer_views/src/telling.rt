//! Runs that are told in words.

ghost use Rattle.std.specs.Prelude.{ℕ, ◌≡◌, ◌+◌, ◌++◌, ◌<◌, ◌≤◌, ◌^◌, ◌||◌, List, [], IfOk};
ghost use Rattle.std.specs.Prelude.{IsTrue, OnOk, codes, if◌then◌else◌, true};
ghost use Rattle.drvhost_devices.specs.declared.fault.Fault.TheVariants.{Memory};
ghost use Rattle.drvhost_devices.specs.Answer.{ended};
ghost use Rattle.answer_views.specs.Seen.{GoesUnseen, Sees};
ghost use Rattle.answer_views.specs.Told.{InRuns, IsRunTold, IsTelling, ToldTimes};
ghost use Rattle.answer_views.specs.Told.{occurs_in, times_of};
ghost use Rattle.interleave.specs.Listing.{IsWithinLimits};
ghost use Rattle.model.specs.Machine.{ShowsWhole};
ghost use Rattle.model.specs.Set.{Set};
ghost use Rattle.tell_audit.specs.declared.findings.Findings.{Findings};
ghost use Rattle.tell_audit.specs.Findings.{AreFindings, any_of};
ghost use Rattle.tell_json.specs.Telling.{is_refused};

use crate::levels::{at_once, times_of};
use crate::page::Page;
use crate::seeing::{Sight, goes_unseen};
use answer::as_text::ended;
use answer_runs::follow::is_last;
use answer_runs::watching::{Observer, Taken, observe};
use checked::Checked;
use drvhost_devices::fault::{End, Fault};
use drvhost_devices::manner::{Detail, Manner};
use drvhost_devices::told::Told;
use interleave::schedule::Schedule;
use laws_runs::waiting_changes_nothing;
use model::event::{Event, Reply};
use std::alloc::{AllocError, Global};
use std::mem::drop;
use tell_audit::findings::Findings;
use tell_holders::Rights;
use tell_uses::laws::going_on_keeps_ledgers;
use tell_uses::ledger::Ledger;

/// What stands before the words of the audit.
const AUDIT: &[u8] = b"\naudit\n";

/// Tells the run of a machine by a schedule, up to an event that stops it, and its audit: with the
/// names and the lines of a text that names its set.
pub(crate) fn tell_run(
    alloc: Global,
    source: &[u8],
    machine: &mut Checked,
    schedule: &Schedule,
    manner: Manner,
) -> Result<Told, AllocError>
    requires begun { ShowsWhole machine.old schedule.now.threads [] }
    requires limits { IsWithinLimits schedule.now }
    ensures { IfOk result (IsRunTold manner machine.old.set schedule.now.threads
        schedule.now.events) }
{
    let mut telling = Telling::of(alloc, source, schedule, manner.detail)?;
    match telling.tell_all(alloc, machine, schedule, manner) {
        Ok(end) => Ok(ended(alloc, end, telling.into_text())),
        Err(lacking) => {
            drop(telling);
            Err(lacking)
        }
    }
}

/// How a run ends that ends so by itself, if it is taken for one that stopped or not, and something
/// was found amiss or not.
pub(crate) fn end_of(end: End, strictly: bool, amiss: bool) -> End
    ensures { result ≡ (if strictly || amiss then End.Stopped else end) }
{
    if strictly || amiss { End::Stopped } else { end }
}

/// A run as it is told.
#[derive(Drop)]
pub(crate) struct Telling<'a> {
    /// What is told of its events.
    pub(crate) page: Page<'a>,
    /// What is seen of them.
    pub(crate) sight: Sight,
    /// Whether one was refused.
    pub(crate) refused: bool,
}

impl<'a> Observer<Checked> for Telling<'a> {
    ghost tells = { IsTelling };

    ghost breaks = { λ start now fault set threads past. fault ≡ Memory };

    #[inline(always)]
    fn watch(
        &mut self,
        machine: &mut Checked,
        event: &Event,
        count: usize,
    ) -> Result<Taken, Fault> {
        waiting_changes_nothing();
        going_on_keeps_ledgers();
        let detail = self.page.detail;
        let unseen = goes_unseen(machine, event, detail);
        let made = self.page.go_ahead(machine, event, count, unseen)?;
        if made > 0 {
            return Ok(Taken {
                count: made,
                ended: false,
            });
        }
        let times = self.tell_next(machine, event, at_once(detail, count), unseen)?;
        Ok(Taken {
            count: times,
            ended: is_last(&self.sight.happened.reply),
        })
    }
}

impl<'a> Telling<'a> {
    /// One by a schedule of which nothing is told yet, with the names and the lines of a text.
    fn of(
        alloc: Global,
        source: &'a [u8],
        schedule: &Schedule,
        detail: Detail,
    ) -> Result<Telling<'a>, AllocError>
        ensures begun { IfOk result (λ telling. (set : Set)
            → IsTelling telling telling set schedule.now.threads []) }
        ensures detail { IfOk result (λ telling. telling.page.detail ≡ detail) }
    {
        let ledger = Ledger::new(alloc, schedule.threads)?;
        match Page::of(alloc, source, schedule.events.len(), detail) {
            Ok(page) => Ok(Telling {
                page,
                sight: Sight::of(alloc, ledger),
                refused: false,
            }),
            Err(lacking) => {
                drop(ledger);
                Err(lacking)
            }
        }
    }

    /// What was told.
    fn into_text(self) -> Vec<u8>
        ensures { result ≡ self.entry.page.text }
    {
        let Telling { page, sight, .. } = self;
        drop(sight);
        page.into_text()
    }

    /// Tells the whole run of a machine, and its audit, and answers how the job ends.
    fn tell_all(
        &mut self,
        alloc: Global,
        machine: &mut Checked,
        schedule: &Schedule,
        manner: Manner,
    ) -> Result<End, AllocError>
        requires begun { ShowsWhole machine.old schedule.now.threads [] }
        requires limits { IsWithinLimits schedule.now }
        requires fresh { IsTelling self.old self.old machine.old.set schedule.now.threads [] }
        requires detail { self.old.page.detail ≡ manner.detail }
        ensures { IfOk result (λ end. IsRunTold manner machine.old.set schedule.now.threads
            schedule.now.events (ended end self.new.page.text.items)) }
    {
        let Ok(end) = observe(machine, schedule, self) else {
            return Err(AllocError);
        };
        let strictly = manner.strictness.fails(self.refused);
        let amiss = self.tell_audit(alloc, machine)?;
        Ok(end_of(end, strictly, amiss))
    }

    /// Adds the audit of a run that was told, and answers whether something was found amiss.
    fn tell_audit(&mut self, alloc: Global, machine: &Checked) -> Result<bool, AllocError>
        ensures found { IfOk result (λ amiss. (found : Findings)
            × AreFindings machine.now.set machine.now.world self.old.sight.ledger found
            × (amiss ≡ any_of found.lost.items found.left.items found.ringed.items
            found.disagreeing.items)) }
        ensures audited { OnOk result ((words : List ℕ) × (self.new.page.text.items
            ≡ self.old.page.text.items ++ (codes "\naudit\n" ++ words))) }
    {
        let found = Findings::of(alloc, machine, &self.sight.ledger)?;
        let told = self.tell_found(alloc, machine, &found);
        let amiss = found.any();
        drop(found);
        told?;
        Ok(amiss)
    }

    /// Adds the audit that found this.
    fn tell_found(
        &mut self,
        alloc: Global,
        machine: &Checked,
        found: &Findings,
    ) -> Result<(), AllocError>
        ensures { OnOk result ((words : List ℕ) × (self.new.page.text.items
            ≡ self.old.page.text.items ++ (codes "\naudit\n" ++ words))) }
    {
        let rights = Rights::of(alloc, machine.set())?;
        let told = self
            .page
            .teller
            .tell_audit(alloc, machine, found, &self.sight.ledger, rights.as_ref());
        drop(rights);
        told?;
        let page = &mut self.page;
        add_audit(page.teller.words(), &mut page.text)?;
        Ok(())
    }

    /// Runs an event that is to happen so often, and adds what is told of it, and of the others
    /// where they do nothing. It answers how many of them have happened.
    fn tell_next(
        &mut self,
        machine: &mut Checked,
        event: &Event,
        count: usize,
        unseen: bool,
    ) -> Result<usize, AllocError>
        requires some { 1 ≤ count }
        requires number { self.old.page.number + count < 2 ^ 64 }
        requires unseen { IsTrue unseen → GoesUnseen self.old.page.detail machine.old event.now }
        ensures times { IfOk result (λ times.
            times ≡ times_of self.new.sight.happened.reply count) }
        ensures detail { OnOk result (self.new.page.detail ≡ self.old.page.detail) }
        ensures number { IfOk result (λ times.
            self.new.page.number ≡ self.old.page.number + times) }
        ensures sees { OnOk result
            (Sees machine.old event.now machine.new self.old.sight self.new.sight) }
        ensures refused { OnOk result (self.new.refused
            ≡ self.old.refused || is_refused self.new.sight.happened.reply) }
        ensures told { IfOk result (λ times. InRuns machine.old (ToldTimes self.old.page.detail
            self.old.page.number (occurs_in machine.old event.now self.new.sight.happened.reply)
            times self.old.page.text.items self.new.page.text.items)) }
    {
        let passed = self.sight.see(machine, event, unseen, self.page.detail)?;
        self.refused |= is_refused(&self.sight.happened.reply);
        if passed {
            self.page.number.advance();
            return Ok(1);
        }
        let times = times_of(&self.sight.happened.reply, count);
        self.page.tell_times(machine, &self.sight.happened, times)?;
        Ok(times)
    }
}

/// Whether an event with this reply was refused.
fn is_refused(reply: &Reply) -> bool
    ensures { result ≡ is_refused reply.now }
{
    matches!(reply, Reply::Refused)
}

/// Adds the audit of a run: that it is one, and words on it.
fn add_audit(words: &[u8], text: &mut Vec<u8>) -> Result<(), AllocError>
    ensures { OnOk result
        (text.new.items ≡ text.old.items ++ (codes "\naudit\n" ++ words.now)) }
{
    text.extend_from_slice(AUDIT)?;
    text.extend_from_slice(words)?;
    Ok(())
}
