//! Whether the worlds of two machines are one.

ghost use Rattle.std.specs.Prelude.{◌≡◌, IsTrue, List, ℕ, false, length};
ghost use Rattle.hunt_worlds.specs.Alike.{SameReads};
ghost use Rattle.model.specs.declared.event.Event.{Event};
ghost use Rattle.model.specs.Machine.{ShowsWhole};
ghost use Rattle.model.specs.Sound.{IsSound};

use crate::cells::same_cells;
use crate::locks::{same_cancel_lock, same_dpcs, same_locks};
use crate::packets::same_packets;
use crate::same::same_all;
use checked::Checked;
use checked_parts::Shared;

/// Whether what threads share is read the same, of so many devices.
fn same_shared(ours: &Shared, its: &Shared, devices: u8) -> bool
    ensures { IsTrue result → SameReads ours.now its.now devices }
{
    ours.issued() == its.issued()
        && same_packets(ours, its)
        && same_cancel_lock(ours, its)
        && same_locks(ours, its, devices)
        && same_cells(ours, its, devices)
        && same_all(ours.queues(), its.queues())
        && same_all(ours.starts(), its.starts())
        && same_dpcs(ours, its, devices)
}

/// How many devices the set of a machine has.
fn device_count(machine: &Checked) -> u8
    ensures count { result ≡ length machine.now.set.devices }
    ensures sound { IsSound machine.now.set }
{
    machine.set().devices().len() as u8
}

/// Whether the threads are the same.
fn same_threads(ours: &Checked, its: &Checked) -> bool
    ensures { IsTrue result → ours.now.world.threads ≡ its.now.world.threads }
{
    same_all(ours.threads(), its.threads())
}

/// Whether what their threads share is read the same, of so many devices.
fn same_reads(ours: &Checked, its: &Checked, devices: u8) -> bool
    ensures { IsTrue result
        → SameReads ours.now.world.shared its.now.world.shared devices }
{
    same_shared(ours.shared(), its.shared(), devices)
}

/// Whether the worlds of two machines that show runs, and haven't stopped, are one.
pub fn same_world(ours: &Checked, its: &Checked) -> bool
    ensures { IsTrue result → (threads more : ℕ) (events others : List Event)
        → ShowsWhole ours.now threads events → ShowsWhole its.now more others
        → ours.now.stopped ≡ false → its.now.stopped ≡ false
        → ours.now.world ≡ its.now.world }
{
    let devices = device_count(ours);
    let others = device_count(its);
    if others != devices {
        return false;
    }
    let threads = same_threads(ours, its);
    if threads {
        let shared = same_reads(ours, its, devices);
        return shared;
    }
    false
}
