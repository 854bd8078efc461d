//! All that an audit finds amiss.

ghost use Rattle.std.specs.Prelude.{◌≡◌, ◌++◌, IfOk, OnOk};
ghost use Rattle.tell_audit.specs.Findings.{AreFindings, any_of, ring_at, ringed_threads};

use crate::laws::{
    accepted_runs_have_no_ring, accepted_runs_leave_no_lock, accepted_runs_lose_no_packet,
};
use crate::left::{LeftLock, left_locks};
use crate::missed::missed_packets;
use crate::naming::lost_packets;
use crate::ring::is_in_ring;
use checked::Checked;
use model::limits::MAX_THREADS;
use std::alloc::{AllocError, Global};
use tell_uses::ledger::Ledger;
use tell_uses::uses::LocationUse;

/// What is amiss in a machine's world, and in the run that led to it; and which packets are still
/// to be cancelled.
#[derive(Drop)]
pub struct Findings {
    /// The live packets that no place names.
    pub lost: Vec<u64>,
    /// The locks that idle threads own.
    pub left: Vec<LeftLock>,
    /// The threads that wait in a ring.
    pub ringed: Vec<u8>,
    /// The packets whose cancellation was missed, which isn't amiss by itself.
    pub missed: Vec<u64>,
    /// The uses of stack locations that were returned from otherwise than they were marked.
    pub disagreeing: Vec<LocationUse>,
}

impl Findings {
    /// All that there is to find, in a machine and in the ledger of its run.
    ///
    /// # Errors
    ///
    /// When memory runs out.
    pub fn of(alloc: Global, machine: &Checked, ledger: &Ledger) -> Result<Findings, AllocError>
        ensures { IfOk result (AreFindings machine.now.set machine.now.world ledger.now) }
    {
        accepted_runs_lose_no_packet();
        accepted_runs_leave_no_lock();
        accepted_runs_have_no_ring();
        let lost = lost_packets(alloc, machine)?;
        let left = left_locks(alloc, machine)?;
        let ringed = ringed_threads(alloc, machine)?;
        let missed = missed_packets(alloc, machine)?;
        let disagreeing = ledger.disagreeing(alloc)?;
        Ok(Findings {
            lost,
            left,
            ringed,
            missed,
            disagreeing,
        })
    }

    /// Whether anything is amiss.
    pub fn any(&self) -> bool
        ensures { result ≡ any_of self.now.lost.items self.now.left.items self.now.ringed.items
            self.now.disagreeing.items }
    {
        !(self.lost.is_empty()
            && self.left.is_empty()
            && self.ringed.is_empty()
            && self.disagreeing.is_empty())
    }
}

/// Adds a thread, if it waits in a ring.
fn add_ringed(ringed: &mut Vec<u8>, machine: &Checked, thread: u8) -> Result<(), AllocError>
    ensures { OnOk result (ringed.new.items
        ≡ ringed.old.items ++ ring_at machine.now.set machine.now.world thread) }
{
    if is_in_ring(machine, thread) {
        ringed.push(thread)?;
    }
    Ok(())
}

/// The threads that wait in a ring, the lowest number first.
///
/// # Errors
///
/// When memory runs out.
pub fn ringed_threads(alloc: Global, machine: &Checked) -> Result<Vec<u8>, AllocError>
    ensures { IfOk result (λ ringed. ringed.items
        ≡ ringed_threads machine.now.set machine.now.world) }
{
    let mut ringed = Vec::new(alloc);
    for thread in 0..MAX_THREADS as u8 {
        add_ringed(&mut ringed, machine, thread)?;
    }
    Ok(ringed)
}
