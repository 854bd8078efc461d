//! Whether something is amiss behind an event.

ghost use Rattle.std.specs.Prelude.{◌≡◌, [], IfOk, IsTrue, None, false, is_some};
ghost use Rattle.tell_audit.specs.Ends.{first_of, stops_with};
ghost use Rattle.hunt_exact.specs.Amiss.{amiss_at, is_sought};

use checked::Checked;
use model::event::Reply;
use std::alloc::{AllocError, Global};
use tell_audit::amiss::Amiss;
use tell_audit::findings::ringed_threads;
use tell_audit::left::{LeftLock, left_locks};
use tell_audit::naming::lost_packets;

/// Whether a reply stops a run: a bug check, or a wrong operand.
fn stops(reply: &Reply) -> bool
    ensures { result ≡ is_some (stops_with reply.now) }
{
    matches!(reply, Reply::Bug(_) | Reply::Wrong(_))
}

/// Whether no packet is lost, no lock left behind, and no thread in a ring.
fn is_fine(lost: &[u64], left: &[LeftLock], ringed: &[u8]) -> bool
    ensures { IsTrue result → first_of lost.now left.now ringed.now [] ≡ None }
{
    lost.is_empty() && left.is_empty() && ringed.is_empty()
}

/// Whether something is amiss in the world of a machine, where the last event had this reply.
pub(crate) fn is_amiss(alloc: Global, machine: &Checked, reply: &Reply) -> Result<bool, AllocError>
    ensures { IfOk result (λ amiss. amiss ≡ false
        → amiss_at machine.now.set machine.now.world reply.now ≡ None) }
{
    let stop = stops(reply);
    if stop {
        return Ok(true);
    }
    let lost = lost_packets(alloc, machine)?;
    let left = left_locks(alloc, machine)?;
    let ringed = ringed_threads(alloc, machine)?;
    let fine = is_fine(&lost, &left, &ringed);
    Ok(!fine)
}

/// Whether what an audit finds amiss is sought: all but a status that disagrees with its mark.
pub(crate) fn is_sought(amiss: &Amiss) -> bool
    ensures { result ≡ is_sought amiss.now }
{
    !matches!(amiss, Amiss::Disagrees(_))
}
