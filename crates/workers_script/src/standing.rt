//! Threads that still have frames after a history.

ghost use Rattle.std.specs.Prelude.{◌≡◌, ◌<◌, ◌≤◌, ℕ, IfOk, false};
ghost use Rattle.model.specs.declared.limits.TheConstants.{MAX_THREADS};
ghost use Rattle.model.specs.History.{events_of};
ghost use Rattle.model.specs.Machine.{ShowsWhole};
ghost use Rattle.model.specs.Sound.{IsSound};
ghost use Rattle.model.specs.Typable.{IsTypable};
ghost use Rattle.model.specs.View.{busy_at};
ghost use Rattle.hostcore.specs.Core.{world_of};
ghost use Rattle.workers_script.specs.Standing.{IsStanding};

use checked::Checked;
use driver_set::DriverSet;
use hostcore::{Core, Stored};
use model::memory::OutOfMemory;
use std::alloc::Global;

/// Whether a thread of a core has frames, or its seat isn't there to ask with.
fn may_be_busy(core: &mut Core, thread: u8) -> bool
    ensures same { core.new ≡ record core.old { seats = core.new.seats } }
    ensures idle { result ≡ false → busy_at (world_of core.old) thread ≡ false }
{
    let Some(seat) = core.seat(thread) else {
        return true;
    };
    let busy = core.busy(&seat);
    let _counted = core.give_back(seat);
    busy
}

/// Whether one of the first so many threads of a core may have frames.
fn any_may_be_busy(core: &mut Core, threads: u8) -> bool
    ensures same { core.new ≡ record core.old { seats = core.new.seats } }
    ensures idle { result ≡ false
        → (t : ℕ) → t < threads → busy_at (world_of core.old) t ≡ false }
{
    for thread in 0..threads {
        if may_be_busy(core, thread) {
            return true;
        }
    }
    false
}

/// The reference machine, which has run the events of a history.
fn after(
    alloc: Global,
    set: DriverSet,
    threads: u8,
    history: &[Stored],
) -> Result<Checked, OutOfMemory>
    requires some { 1 ≤ threads }
    requires few { threads ≤ MAX_THREADS }
    ensures set { IfOk result (λ machine. machine.set ≡ set) }
    ensures shows { IfOk result (λ machine. ShowsWhole machine threads (events_of history.now)) }
{
    let mut machine = match Checked::new(alloc, set, threads) {
        Ok(machine) => machine,
        Err((_set, refused)) => return Err(refused),
    };
    for entry in history {
        let _reply = machine.apply(&entry.event());
    }
    Ok(machine)
}

/// Where a thread of a core of an accepted set has frames, the reference machine, which has run the
/// events of the history of the core.
pub(crate) fn standing_in(
    alloc: Global,
    set: DriverSet,
    core: &mut Core,
    threads: u8,
) -> Result<Option<Checked>, OutOfMemory>
    requires some { 1 ≤ threads }
    requires few { threads ≤ MAX_THREADS }
    requires typable { IsTypable set }
    requires sound { IsSound set }
    requires set { core.old.set ≡ set }
    requires threads { core.old.threads ≡ threads }
    ensures same { core.new ≡ record core.old { seats = core.new.seats } }
    ensures standing { IfOk result (IsStanding set threads core.old.history) }
{
    if any_may_be_busy(core, threads) {
        let machine = after(alloc, set, threads, core.history())?;
        return Ok(Some(machine));
    }
    Ok(None)
}
