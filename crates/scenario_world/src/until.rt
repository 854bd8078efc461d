//! Where the steps that a thread makes one after another are to end.

ghost use Rattle.std.specs.Prelude.{◌≡◌, IfSome, IsTrue, None, false};
ghost use Rattle.scenario_world.specs.Going.{other_goes_on};
ghost use Rattle.scenario_world.specs.Until.{IsBeyond, MaySteps, StaysLone, fits, is_before};
ghost use Rattle.scenario_world.specs.Until.{lone_until, wakes};

use crate::going::{is_busy_at, other_goes_on, other_is_busy};
use crate::releases::stands_before_release;
use crate::states::stands_at;
use checked::Checked;
use model::event::Place;
use scenario_names::names::Spot;
use tell_audit::ring::waits_for;

/// Before which step of a thread its steps end.
#[derive(Clone, Copy)]
pub enum Until {
    /// None.
    Never,
    /// That of an instruction.
    At(Spot),
    /// One that releases a spin lock of its device.
    Release(u8),
    /// One that waits for a lock.
    Waiting,
    /// One that waits for a lock; and behind one after which another thread, of the first so many,
    /// goes on.
    Alone(u8),
}

/// Where the steps of a thread are to end, so that no other one of so many goes on before: they do
/// so if another one has frames, and waits.
pub fn lone_until(machine: &Checked, thread: u8, threads: u8) -> Until
    requires { other_goes_on machine.now.set machine.now.world thread threads ≡ false }
    ensures which { result ≡ lone_until machine.now.world thread threads }
    ensures stays { StaysLone result machine.now.set machine.now.world thread threads }
{
    if other_is_busy(machine, thread, threads) {
        Until::Alone(threads)
    } else {
        Until::Waiting
    }
}

/// The place of an instruction as the machine has it.
pub fn place_of(spot: Spot) -> Option<Place>
    ensures some { IfSome result (fits spot) }
    ensures none { result ≡ None → IsBeyond spot }
{
    let driver = u8::try_from(spot.driver).ok()?;
    let routine = u8::try_from(spot.routine).ok()?;
    let position = u16::try_from(spot.position).ok()?;
    Some(Place {
        driver,
        routine,
        position,
    })
}

/// Whether a thread has frames, and its next step is made.
pub fn may_step(machine: &Checked, thread: u8, until: Until) -> bool
    ensures may { IsTrue result → MaySteps until machine.now.set machine.now.world thread }
    ensures only { MaySteps until machine.now.set machine.now.world thread → IsTrue result }
{
    is_busy_at(machine, thread) && !is_before(machine, thread, until)
}

/// Whether the steps of a thread end before its next one.
pub fn is_before(machine: &Checked, thread: u8, until: Until) -> bool
    ensures { result ≡ is_before until machine.now.set machine.now.world thread }
{
    match until {
        Until::Never => false,
        Until::At(spot) => stands_at(machine, thread, spot),
        Until::Release(lock) => stands_before_release(machine, thread, lock),
        Until::Waiting | Until::Alone(_) => waits_for(machine, thread).is_some(),
    }
}

/// Whether they end behind a step because another thread goes on.
pub fn wakes(machine: &Checked, thread: u8, until: Until) -> bool
    ensures { result ≡ wakes until machine.now.set machine.now.world thread }
{
    match until {
        Until::Never | Until::At(_) | Until::Release(_) | Until::Waiting => false,
        Until::Alone(threads) => other_goes_on(machine, thread, threads),
    }
}
