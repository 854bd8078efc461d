//! Whether all workers' threads stand still.

ghost use Rattle.std.specs.Prelude.{◌≡◌, ◌<◌, ◌≤◌, ◌⊎◌, ◌↔◌, ◌||◌, ℕ, IsTrue, false, get_or};
ghost use Rattle.std.specs.Prelude.{length, true};
ghost use Rattle.hostcore.specs.Core.{world_of};
ghost use Rattle.intake.specs.declared.limits.TheConstants.{MAX_TAKERS};
ghost use Rattle.model.specs.View.{busy_at};

use crate::ending::Gone;
use hostcore::{Core, Seat};
use model::limits::MAX_THREADS;

/// Marks of threads: of those that are known to wait, as a step of them has shown since the last
/// entry, or of others.
pub(crate) type Marks = [bool; MAX_THREADS];

/// Whether a thread is known to wait, or no one steps it any more.
fn is_still(marks: &Marks, gone: &Gone, thread: usize) -> bool
    requires { thread < MAX_TAKERS }
    ensures { result ≡ get_or marks.now thread false || get_or gone.now thread false }
{
    marks[thread] || gone.has(thread)
}

/// Whether none of the threads of these seats goes on: each is known to wait, or no one steps it
/// any more, or it has no frames.
pub(crate) fn none_goes_on(core: &Core, seats: &[Seat], marks: &Marks, gone: &Gone) -> bool
    requires few { length seats.now ≤ MAX_TAKERS }
    ensures { IsTrue result ↔ ((t : ℕ) → t < length seats.now
        → ((get_or marks.now t false || get_or gone.now t false) ≡ true)
        ⊎ (busy_at (world_of core.now) (get_or seats.now t t) ≡ false)) }
{
    for thread in 0..seats.len() {
        if !is_still(marks, gone, thread) && core.busy(&seats[thread]) {
            return false;
        }
    }
    true
}
