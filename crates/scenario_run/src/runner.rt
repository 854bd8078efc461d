//! A machine that runs events, with the ledger of its run where an audit is to come.

ghost use Rattle.std.specs.Prelude.{◌≡◌, ◌≤◌, [], IfOk};
ghost use Rattle.model.specs.declared.limits.TheConstants.{MAX_THREADS};
ghost use Rattle.scenario_run.specs.Running.{Begins, IsFine, RunsOn, StaysBegun};

use checked::Checked;
use driver_set::DriverSet;
use model::event::{Event, Reply};
use std::alloc::{AllocError, Global};
use tell_audit::findings::Findings;
use tell_uses::acts::use_step;
use tell_uses::ledger::Ledger;

/// What is kept of a run beside its events.
#[derive(Clone, Copy)]
pub enum Keeping {
    /// Nothing.
    Nothing,
    /// The ledger that its audit needs.
    Ledger,
}

/// A machine, and the ledger of its run where that is kept.
#[derive(Drop)]
pub struct Runner {
    pub alloc: Global,
    pub machine: Checked,
    pub ledger: Ledger,
    pub keeping: Keeping,
}

impl Runner {
    /// Over a set, on 1 to 64 threads, before the first event, with no ledger.
    pub(crate) fn new(alloc: Global, set: &DriverSet, threads: u8) -> Result<Runner, AllocError>
        requires some { 1 ≤ threads }
        requires few { threads ≤ MAX_THREADS }
        ensures { IfOk result (Begins set.now threads) }
    {
        let ledger = Ledger::new(alloc, threads)?;
        let Ok(set) = set.copy(alloc) else {
            return Err(AllocError);
        };
        let Ok(machine) = Checked::new(alloc, set, threads) else {
            return Err(AllocError);
        };
        Ok(Runner {
            alloc,
            machine,
            ledger,
            keeping: Keeping::Nothing,
        })
    }

    /// Keeps the ledger from the first event on, on so many threads.
    pub(crate) fn keep_ledger(&mut self, threads: u8) -> Result<(), AllocError>
        ensures machine { self.new.machine ≡ self.old.machine }
        ensures begun { StaysBegun threads self.old self.new }
    {
        self.ledger = Ledger::new(self.alloc, threads)?;
        self.keeping = Keeping::Ledger;
        Ok(())
    }

    /// Applies an event, and notes it in the ledger, if that is kept: as long as memory lasts.
    #[inline(always)]
    #[tactic(auto, using(crate::proofs::Running::runs_plain))]
    pub(crate) fn apply(&mut self, event: &Event) -> Reply
        ensures { RunsOn self.old event.now self.new result }
    {
        match self.keeping {
            Keeping::Nothing => self.machine.apply(event),
            Keeping::Ledger => self.apply_noted(event),
        }
    }

    /// The same where the ledger is kept.
    #[inline(never)]
    #[tactic(auto, using(crate::proofs::Running::runs_plain, crate::proofs::Running::runs_noted))]
    fn apply_noted(&mut self, event: &Event) -> Reply
        requires { self.old.keeping ≡ Keeping.Ledger }
        ensures { RunsOn self.old event.now self.new result }
    {
        let step = use_step(&self.machine, event);
        let reply = self.machine.apply(event);
        let noted = self
            .ledger
            .note(self.alloc, step, event, &reply, &self.machine);
        if noted.is_err() {
            self.keeping = Keeping::Nothing;
        }
        reply
    }

    /// Whether an audit finds nothing amiss, where the ledger is kept.
    ///
    /// # Errors
    ///
    /// When memory runs out.
    pub(crate) fn is_fine(&self) -> Result<Option<bool>, AllocError>
        ensures { IfOk result (IsFine self.now) }
    {
        match self.keeping {
            Keeping::Nothing => Ok(None),
            Keeping::Ledger => {
                let found = Findings::of(self.alloc, &self.machine, &self.ledger)?;
                Ok(Some(!found.any()))
            }
        }
    }
}
