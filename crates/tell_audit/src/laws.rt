//! Laws of the audit. Nothing runs here.

ghost use Rattle.tell_audit.specs.Laws.{AcceptedRunsHaveNoRing, AcceptedRunsLeaveNoLock};
ghost use Rattle.tell_audit.specs.Laws.{AcceptedRunsLoseNoPacket, RefusalsHaveReasons};

use laws_runs::{accepted_runs_come_to_rest, packets_have_one_holder};

/// No run of an accepted set loses a packet.
pub fn accepted_runs_lose_no_packet()
    ensures { AcceptedRunsLoseNoPacket }
{
    packets_have_one_holder();
}

/// No run of an accepted set leaves a lock behind: no idle thread owns one.
pub fn accepted_runs_leave_no_lock()
    ensures { AcceptedRunsLeaveNoLock }
{}

/// No run of an accepted set whose drivers each take their locks in an order has threads that wait
/// in a ring.
pub fn accepted_runs_have_no_ring()
    ensures { AcceptedRunsHaveNoRing }
{
    accepted_runs_come_to_rest();
}

/// An event that is no step of a thread is refused, in any world, exactly where there is a reason.
pub fn refusals_have_reasons()
    ensures { RefusalsHaveReasons }
{}
