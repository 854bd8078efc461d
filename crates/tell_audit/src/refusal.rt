//! Why events are refused.

ghost use Rattle.std.specs.Prelude.{◌≡◌, option_map, slice_get};
ghost use Rattle.tell_audit.specs.Refusal.{why_no_cancel, why_no_dpc, why_no_issue, why_no_startio};
ghost use Rattle.tell_audit.specs.Refusal.{why_refused};
ghost use Rattle.model.specs.Events.{irql_of, is_idle};
ghost use Rattle.model.specs.Set.{dpc_of, startio_of};

use checked::Checked;
use model::event::Event;

/// What would have to be otherwise for an event to happen.
#[derive(Clone, Copy)]
pub enum Reason {
    /// There is no thread of this number.
    NoThread,
    /// The thread has frames.
    NotIdle,
    /// There is no device of this number.
    NoDevice,
    /// So many packets live, or were issued, that there is no room for another one.
    NoRoom,
    /// There is no level of this number.
    NoLevel,
    /// No packet of this number was issued.
    NotIssued,
    /// The driver of the device has no DPC routine, or there is no such device.
    NoDpc,
    /// The driver of the device has no StartIo routine, or there is no such device.
    NoStartIo,
}

/// Whether a thread has no frames, if there is such a thread.
fn idle(machine: &Checked, thread: u8) -> Option<bool>
    ensures { result ≡ option_map is_idle (slice_get machine.now.world.threads thread) }
{
    Some(machine.threads().get(thread as usize)?.is_idle())
}

/// Why no packet can be issued on a thread for a device.
fn why_no_issue(machine: &Checked, thread: u8, device: u8) -> Option<Reason>
    ensures { result ≡ why_no_issue machine.now.world
        (slice_get machine.now.world.threads thread) (slice_get machine.now.set.devices device) }
{
    let Some(idle) = idle(machine, thread) else {
        return Some(Reason::NoThread);
    };
    if machine.set().devices().get(device as usize).is_none() {
        return Some(Reason::NoDevice);
    }
    if !idle {
        return Some(Reason::NotIdle);
    }
    if machine.shared().can_issue() {
        return None;
    }
    Some(Reason::NoRoom)
}

/// Why IoCancelIrp can't begin for a packet on a thread at a level.
fn why_no_cancel(machine: &Checked, thread: u8, packet: u64, level: u8) -> Option<Reason>
    ensures { result ≡ why_no_cancel machine.now.world packet (irql_of level)
        (slice_get machine.now.world.threads thread) }
{
    let Some(idle) = idle(machine, thread) else {
        return Some(Reason::NoThread);
    };
    if level > 2 {
        return Some(Reason::NoLevel);
    }
    if !idle {
        return Some(Reason::NotIdle);
    }
    if machine.shared().is_issued(packet) {
        return None;
    }
    Some(Reason::NotIssued)
}

/// Why the DPC routine of a device can't begin on a thread.
fn why_no_dpc(machine: &Checked, thread: u8, device: u8) -> Option<Reason>
    ensures { result ≡ why_no_dpc (slice_get machine.now.world.threads thread)
        (dpc_of machine.now.set device) }
{
    let Some(idle) = idle(machine, thread) else {
        return Some(Reason::NoThread);
    };
    if machine.set().dpc(device).is_none() {
        return Some(Reason::NoDpc);
    }
    if idle { None } else { Some(Reason::NotIdle) }
}

/// Why the StartIo routine of a device can't begin on a thread.
fn why_no_startio(machine: &Checked, thread: u8, device: u8) -> Option<Reason>
    ensures { result ≡ why_no_startio machine.now.world.shared device
        (slice_get machine.now.world.threads thread) (startio_of machine.now.set device) }
{
    let Some(idle) = idle(machine, thread) else {
        return Some(Reason::NoThread);
    };
    if machine.set().startio(device).is_none() {
        return Some(Reason::NoStartIo);
    }
    if !idle {
        return Some(Reason::NotIdle);
    }
    match machine.shared().start_of(device) {
        Some(_) => None,
        None => Some(Reason::NoDevice),
    }
}

/// Why an event can't happen, before it is applied; of a step only that there is no such thread.
pub fn why_refused(machine: &Checked, event: &Event) -> Option<Reason>
    ensures { result ≡ why_refused machine.now.set machine.now.world event.now }
{
    match *event {
        Event::Issue { thread, device, .. } => why_no_issue(machine, thread, device),
        Event::Cancel {
            thread,
            packet,
            level,
        } => why_no_cancel(machine, thread, packet, level),
        Event::Interrupt { device } => match machine.set().dpc(device) {
            Some(_) => None,
            None => Some(Reason::NoDpc),
        },
        Event::Dpc { thread, device } => why_no_dpc(machine, thread, device),
        Event::StartIo { thread, device } => why_no_startio(machine, thread, device),
        Event::Step { thread } => match machine.thread(thread) {
            Some(_) => None,
            None => Some(Reason::NoThread),
        },
    }
}
