//! Whether what is expected holds in a run.

ghost use Rattle.std.specs.Prelude.{◌≡◌, ◌++◌, IfOk, OnOk, replicate};
ghost use Rattle.tell_audit.specs.Ends.{Rehearses, amiss_in};
ghost use Rattle.scenario_run.specs.Holding.{holds, is_clean, numbers_of, packet_holds};
ghost use Rattle.scenario_run.specs.Past.{events_of};
ghost use Rattle.scenario_run.specs.Playing.{number_of, replies_of, run_of, world_of};
ghost use Rattle.scenario_world.specs.Expected.{entries_of, has_entries};

use crate::playing::Playing;
use interleave::read::Repeated;
use model::event::{Event, Reply};
use scenario_expected::expectation::{Expectation, List, MAX_LISTED, PacketState, is_verdict};
use scenario_world::holders::is_held;
use scenario_world::lists::{has_entries, has_entry, is_current};
use scenario_world::locks::is_owned;
use scenario_world::marks::{is_marked, is_unmarked};
use scenario_world::states::{device_holds, is_cancelled, is_live, thread_holds, topped_as};
use std::alloc::{AllocError, Global};
use tell_audit::amiss::Amiss;
use tell_audit::rehearsal::Rehearsal;

/// Whether what is expected holds.
///
/// # Errors
///
/// When memory runs out.
pub fn holds(
    alloc: Global,
    playing: &Playing,
    expectation: &Expectation,
) -> Result<bool, AllocError>
    ensures { IfOk result (λ yes. yes ≡ holds playing.now expectation.now) }
{
    match *expectation {
        Expectation::Clean => is_clean(alloc, playing),
        Expectation::Bug(number) => Ok(playing.has_bug(number)),
        Expectation::Packet { packet, state } => Ok(packet_holds(playing, packet, state)),
        Expectation::Thread { thread, state } => Ok(thread_holds(playing.machine(), thread, state)),
        Expectation::Device { device, state } => device_holds(playing.machine(), device, state),
        Expectation::Lock { lock, owner } => Ok(is_owned(playing.machine(), lock, owner)),
        Expectation::Listed {
            device,
            list,
            packets,
        } => are_listed(alloc, playing, device, list, &packets),
        Expectation::Verdict(_) => Ok(false),
        Expectation::Judged { expected, found } => Ok(is_verdict(expected, found)),
    }
}

/// Whether the run goes on, and its audit finds nothing amiss.
fn is_clean(alloc: Global, playing: &Playing) -> Result<bool, AllocError>
    ensures { IfOk result (λ yes. yes ≡ is_clean playing.now.set (run_of playing.now)) }
{
    if playing.machine().stopped() {
        return Ok(false);
    }
    match playing.is_fine()? {
        Some(fine) => Ok(fine),
        None => Ok(amiss(alloc, playing)?.is_none()),
    }
}

/// What an audit finds amiss in a run, first.
///
/// # Errors
///
/// When memory runs out.
pub fn amiss(alloc: Global, playing: &Playing) -> Result<Option<Amiss>, AllocError>
    ensures { IfOk result (λ amiss. amiss ≡ amiss_in playing.now.set (run_of playing.now)) }
{
    let run = replay(alloc, playing)?;
    run.amiss(&Reply::Stepped)
}

/// The run once more, with what its audit needs.
fn replay(alloc: Global, playing: &Playing) -> Result<Rehearsal, AllocError>
    ensures { IfOk result (Rehearses playing.now.set playing.now.threads playing.now.events) }
{
    let events = events_of(alloc, playing.past())?;
    let set = playing.machine().set();
    Rehearsal::replay(alloc, set, playing.threads(), events.as_slice())
}

/// The events of what has happened.
///
/// # Errors
///
/// When memory runs out.
#[tactic(auto, using(crate::proofs::Pasts::events_further))]
pub fn events_of(alloc: Global, past: &[Repeated]) -> Result<Vec<Event>, AllocError>
    ensures { IfOk result (λ events. events.items ≡ events_of past.now) }
{
    let mut events = Vec::new(alloc);
    for happened in past {
        add_times(&mut events, happened.event, happened.count)?;
    }
    Ok(events)
}

/// Adds an event so many times.
fn add_times(events: &mut Vec<Event>, event: Event, count: usize) -> Result<(), AllocError>
    ensures { OnOk result (events.new.items ≡ events.old.items ++ replicate count event) }
{
    for _ in 0..count {
        events.push(event)?;
    }
    Ok(())
}

/// Whether this holds of a packet of the scenario.
fn packet_holds(playing: &Playing, packet: u16, state: PacketState) -> bool
    ensures { result ≡ packet_holds (world_of playing.now) (replies_of playing.now)
        (number_of playing.now packet) state }
{
    let Some(number) = playing.number_of(packet) else {
        return false;
    };
    let machine = playing.machine();
    match state {
        PacketState::Live => is_live(&machine.packet(number)),
        PacketState::Cancelled => is_cancelled(&machine.packet(number)),
        PacketState::Topped {
            status,
            information,
        } => topped_as(status, information, playing.top_out(number)),
        PacketState::Marked => is_marked(&machine.packet(number)),
        PacketState::Unmarked => is_unmarked(&machine.packet(number)),
        PacketState::In { device, list } => has_entry(machine, number, device, list),
        PacketState::Current(device) => is_current(machine, number, device),
        PacketState::Held { driver, routine } => is_held(machine, number, driver, routine),
    }
}

/// Whether these packets stand in a list of a device and no others, in this order.
fn are_listed(
    alloc: Global,
    playing: &Playing,
    device: u8,
    list: List,
    packets: &[Option<u16>; MAX_LISTED],
) -> Result<bool, AllocError>
    ensures { IfOk result (λ yes. yes ≡ has_entries (numbers_of playing.now packets.now)
        (entries_of (world_of playing.now).shared device list)) }
{
    let numbers = numbers_of(alloc, playing, packets)?;
    Ok(has_entries(playing.machine(), numbers.as_slice(), device, list))
}

/// The numbers of the packets that a line names.
#[tactic(auto, using(crate::proofs::Numbers::numbers_some, crate::proofs::Numbers::numbers_none, crate::proofs::Numbers::numbers_over))]
fn numbers_of(
    alloc: Global,
    playing: &Playing,
    packets: &[Option<u16>; MAX_LISTED],
) -> Result<Vec<Option<u64>>, AllocError>
    ensures { IfOk result (λ numbers. numbers.items ≡ numbers_of playing.now packets.now) }
{
    let mut numbers = Vec::new(alloc);
    for packet in packets {
        if let Some(packet) = packet {
            numbers.push(playing.number_of(*packet))?;
        }
    }
    Ok(numbers)
}
