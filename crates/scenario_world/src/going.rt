//! Threads that go on: they have frames and wait for no lock.

ghost use Rattle.std.specs.Prelude.{◌≡◌, ◌<◌, IfSome, None, false, true};
ghost use Rattle.model.specs.View.{busy_at};
ghost use Rattle.scenario_world.specs.Going.{AreGoing, any_goes_on, goes_on, other_goes_on};
ghost use Rattle.scenario_world.specs.Going.{other_is_busy};

use checked::Checked;
use tell_audit::ring::waits_for;

/// Which threads go on.
#[derive(Clone, Copy)]
pub enum Going {
    /// None.
    Nobody,
    /// This one alone.
    One(u8),
    /// More than one.
    Several,
}

/// Which ones of so many threads go on.
#[tactic(auto, using(crate::proofs::AnyGoes::any_by))]
pub fn who_goes_on(machine: &Checked, threads: u8) -> Going
    ensures { AreGoing machine.now.set machine.now.world threads result }
{
    match first_going(machine, threads) {
        None => Going::Nobody,
        Some(thread) => {
            if other_goes_on(machine, thread, threads) {
                Going::Several
            } else {
                Going::One(thread)
            }
        }
    }
}

/// The first of so many threads that goes on.
fn first_going(machine: &Checked, threads: u8) -> Option<u8>
    ensures some { IfSome result (λ t.
        (t < threads) × (goes_on machine.now.set machine.now.world t ≡ true)) }
    ensures none { result ≡ None
        → any_goes_on machine.now.set machine.now.world threads ≡ false }
{
    for thread in 0..threads {
        if goes_on(machine, thread) {
            return Some(thread);
        }
    }
    None
}

/// Whether another one of so many threads goes on.
pub fn other_goes_on(machine: &Checked, thread: u8, threads: u8) -> bool
    ensures { result ≡ other_goes_on machine.now.set machine.now.world thread threads }
{
    let mut found = false;
    for other in 0..threads {
        found = found || (other != thread && goes_on(machine, other));
    }
    found
}

/// Whether another one has frames.
pub fn other_is_busy(machine: &Checked, thread: u8, threads: u8) -> bool
    ensures { result ≡ other_is_busy machine.now.world thread threads }
{
    let mut found = false;
    for other in 0..threads {
        found = found || (other != thread && is_busy_at(machine, other));
    }
    found
}

/// Whether a thread goes on.
pub fn goes_on(machine: &Checked, thread: u8) -> bool
    ensures { result ≡ goes_on machine.now.set machine.now.world thread }
{
    is_busy_at(machine, thread) && waits_for(machine, thread).is_none()
}

/// Whether a thread has frames.
pub fn is_busy_at(machine: &Checked, thread: u8) -> bool
    ensures { result ≡ busy_at machine.now.world thread }
{
    match machine.thread(thread) {
        Some(view) => view.frames > 0,
        None => false,
    }
}
