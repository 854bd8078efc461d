//! How a run is told, event by event.

ghost use Rattle.std.specs.Prelude.{◌≡◌, ◌+◌, ◌⊎◌, [], ℕ, IfErr, IfOk, List};
ghost use Rattle.interleave.specs.declared.schedule.ScheduleFault.{ScheduleFault};
ghost use Rattle.interleave.specs.Listing.{IsWithinLimits};
ghost use Rattle.model.specs.declared.event.Reply.{Reply};
ghost use Rattle.model.specs.Run.{begun};
ghost use Rattle.drvhost_devices.specs.Answer.{Answer, shown_replies};
ghost use Rattle.drvhost_devices.specs.Device.{CanCount};
ghost use Rattle.drvhost_devices.specs.Fault.{writes_failed};
ghost use Rattle.answer_runs.specs.Traced.{Streams};

use crate::running::Machine;
use drvhost_devices::device::Sink;
use drvhost_devices::fault::{End, Fault};
use drvhost_devices::told::Told;
use interleave::schedule::{Schedule, ScheduleFault};
use std::alloc::{AllocError, Global};

/// How a run is told as it goes, and the fault of its schedule.
pub trait RunForm {
    // The right answers for a run with these replies, up to one that ends it.
    ghost is_run: { Self → List Reply → Answer → Type 0 };

    // And for a schedule with this fault, which is the file of a name.
    ghost is_schedule_fault: { Self → List ℕ → ScheduleFault → Answer → Type 0 };

    /// The schedule has this fault.
    ///
    /// # Errors
    ///
    /// When memory runs out.
    fn schedule_fault(
        &self,
        alloc: Global,
        name: &str,
        fault: ScheduleFault,
    ) -> Result<Told, AllocError>
        ensures { IfOk result (is_schedule_fault self.now name.now fault) };

    /// Runs the events of a schedule, up to one that stops the run, and writes what is told of each.
    ///
    /// # Errors
    ///
    /// When a write fails, or memory runs out.
    fn follow<M: Machine, O: Sink>(
        &self,
        alloc: Global,
        machine: &mut M,
        schedule: &Schedule,
        out: &mut O,
    ) -> Result<End, Fault>
        requires begun { M.shows machine.old schedule.now.threads [] }
        requires limits { IsWithinLimits schedule.now }
        requires out { CanCount (O.failures out.old) }
        ensures streams { Streams (is_run self.now (shown_replies (M.set_of machine.old)
            (begun (M.set_of machine.old) schedule.now.threads) schedule.now.events))
            (O.contents out.old) (O.contents out.new) result }
        ensures fault { IfErr result (λ fault. (fault ≡ Fault.Write) ⊎ (fault ≡ Fault.Memory)) }
        ensures writes { O.failures out.new ≡ O.failures out.old + writes_failed result };
}
