//! Runs on the reference machine, with the ledger that their audit needs.

ghost use Rattle.std.specs.Prelude.{◌≡◌, ◌≤◌, ◌++◌, ◌∷◌, [], IfOk, OnOk};
ghost use Rattle.tell_audit.specs.Ends.{GoesOn, IsAmissNow, Rehearses, amiss_after};
ghost use Rattle.model.specs.declared.limits.TheConstants.{MAX_THREADS};
ghost use Rattle.model.specs.Machine.{reply_to};

use crate::amiss::{Amiss, first_of, stops_with};
use crate::findings::Findings;
use checked::Checked;
use driver_set::DriverSet;
use model::event::{Event, Reply};
use std::alloc::{AllocError, Global};
use std::marker::Model;
use tell_uses::acts::use_step;
use tell_uses::ledger::Ledger;

/// A run on the reference machine, and its ledger.
#[derive(Drop)]
pub struct Rehearsal {
    alloc: Global,
    machine: Checked,
    ledger: Ledger,
}

impl Model for Rehearsal {
    ghost use Rattle.tell_audit.specs.Ends.{Rehearsed};

    ghost Value = { Rehearsed };

    ghost view = { λ r. record { machine = r.machine; ledger = r.ledger } };
}

impl Rehearsal {
    /// A run of the set on so many threads, 1 to 64, before the first event.
    ///
    /// # Errors
    ///
    /// When memory runs out.
    pub fn of(alloc: Global, set: &DriverSet, threads: u8) -> Result<Rehearsal, AllocError>
        requires some { 1 ≤ threads }
        requires few { threads ≤ MAX_THREADS }
        ensures { IfOk result (Rehearses set.now threads []) }
    {
        let Ok(set) = set.copy(alloc) else {
            return Err(AllocError);
        };
        let Ok(machine) = Checked::new(alloc, set, threads) else {
            return Err(AllocError);
        };
        let ledger = Ledger::new(alloc, threads)?;
        Ok(Rehearsal {
            alloc,
            machine,
            ledger,
        })
    }

    /// The run of these events on so many threads, 1 to 64.
    ///
    /// # Errors
    ///
    /// When memory runs out.
    pub fn replay(
        alloc: Global,
        set: &DriverSet,
        threads: u8,
        events: &[Event],
    ) -> Result<Rehearsal, AllocError>
        requires some { 1 ≤ threads }
        requires few { threads ≤ MAX_THREADS }
        ensures { IfOk result (Rehearses set.now threads events.now) }
    {
        let mut run = Rehearsal::of(alloc, set, threads)?;
        for event in events {
            let _reply = run.apply(event)?;
        }
        Ok(run)
    }

    /// The machine.
    pub fn machine(&self) -> &Checked
        ensures { result.now ≡ self.now.machine }
    {
        &self.machine
    }

    /// The ledger of its run.
    pub fn ledger(&self) -> &Ledger
        ensures { result.now ≡ self.now.ledger }
    {
        &self.ledger
    }

    /// Applies an event, and answers the reply of the run.
    ///
    /// # Errors
    ///
    /// When memory runs out.
    pub fn apply(&mut self, event: &Event) -> Result<Reply, AllocError>
        ensures { IfOk result (GoesOn self.old event.now self.new) }
    {
        let step = use_step(&self.machine, event);
        let reply = self.machine.apply(event);
        self.ledger
            .note(self.alloc, step, event, &reply, &self.machine)?;
        Ok(reply)
    }

    /// What is amiss now, where the last event had this reply.
    ///
    /// # Errors
    ///
    /// When memory runs out.
    pub fn amiss(&self, reply: &Reply) -> Result<Option<Amiss>, AllocError>
        ensures { IfOk result (IsAmissNow self.now reply.now) }
    {
        if let Some(stop) = stops_with(reply) {
            return Ok(Some(stop));
        }
        let found = Findings::of(self.alloc, &self.machine, &self.ledger)?;
        Ok(first_of(&found))
    }
}

/// A run that has ended.
#[derive(Drop)]
pub struct Ended {
    pub run: Rehearsal,
    /// The reply to its last event.
    pub reply: Reply,
    /// What is amiss behind that.
    pub amiss: Option<Amiss>,
}

/// The run of these events and a last one on so many threads, 1 to 64, from its begin to its end.
///
/// # Errors
///
/// When memory runs out.
pub fn rehearse(
    alloc: Global,
    set: &DriverSet,
    threads: u8,
    before: &[Event],
    last: &Event,
) -> Result<Ended, AllocError>
    requires some { 1 ≤ threads }
    requires few { threads ≤ MAX_THREADS }
    ensures replies { IfOk result (λ ended.
        ended.reply ≡ reply_to set.now threads before.now last.now) }
    ensures amiss { IfOk result (λ ended.
        ended.amiss ≡ amiss_after set.now threads before.now last.now) }
    ensures shows { IfOk result (λ ended.
        Rehearses set.now threads (before.now ++ last.now ∷ []) ended.run) }
{
    let mut run = Rehearsal::replay(alloc, set, threads, before)?;
    let reply = run.apply(last)?;
    let amiss = run.amiss(&reply)?;
    Ok(Ended { run, reply, amiss })
}
