//! Live packets.

ghost use Rattle.std.specs.Prelude.{◌≡◌, IsTrue, option_map, slice_get};
ghost use Rattle.hunt_worlds.specs.Alike.{SamePackets};
ghost use Rattle.model.specs.World.{packet_of};

use checked_parts::Shared;
use irp::Packet;
use model::instr::Field;
use model::status::Major;
use model::world::{Armer, Completion};

fn same_major(ours: Option<Major>, its: Option<Major>) -> bool
    ensures { IsTrue result → ours ≡ its }
{
    match (ours, its) {
        (None, None)
        | (Some(Major::Read), Some(Major::Read))
        | (Some(Major::Write), Some(Major::Write))
        | (Some(Major::Control), Some(Major::Control)) => true,
        _ => false,
    }
}

fn same_completion(ours: Option<Completion>, its: Option<Completion>) -> bool
    ensures { IsTrue result → ours ≡ its }
{
    match (ours, its) {
        (None, None) => true,
        (Some(ours), Some(its)) => ours.routine == its.routine && ours.device == its.device,
        _ => false,
    }
}

fn same_armer(ours: Option<Armer>, its: Option<Armer>) -> bool
    ensures { IsTrue result → ours ≡ its }
{
    match (ours, its) {
        (None, None) => true,
        (Some(ours), Some(its)) => ours.device == its.device && ours.queue == its.queue,
        _ => false,
    }
}

/// Whether the locations at a place are the same, or neither packet has one there.
fn same_place(ours: &Packet, its: &Packet, place: usize) -> bool
    ensures { IsTrue result
        → slice_get ours.now.locations.items place ≡ slice_get its.now.locations.items place }
{
    match (ours.location(place), its.location(place)) {
        (Some(ours), Some(its)) => {
            ours.field(Field::Argument) == its.field(Field::Argument)
                && ours.device() == its.device()
                && ours.is_marked() == its.is_marked()
                && same_major(ours.major(), its.major())
                && same_completion(ours.completion(), its.completion())
        }
        (None, None) => true,
        _ => false,
    }
}

fn same_locations(ours: &Packet, its: &Packet) -> bool
    ensures { IsTrue result → ours.now.locations.items ≡ its.now.locations.items }
{
    if ours.stack_size() != its.stack_size() {
        return false;
    }
    for place in 0..ours.stack_size() {
        if !same_place(ours, its, place) {
            return false;
        }
    }
    true
}

fn same_packet(ours: &Packet, its: &Packet) -> bool
    ensures { IsTrue result → ours.now ≡ its.now }
{
    ours.number() == its.number()
        && ours.depth() == its.depth()
        && ours.status() == its.status()
        && ours.info() == its.info()
        && ours.is_completing() == its.is_completing()
        && ours.pending_returned() == its.pending_returned()
        && ours.is_cancelled() == its.is_cancelled()
        && same_armer(ours.armer(), its.armer())
        && same_locations(ours, its)
}

/// Whether the packets of a number are the same, or neither is live.
fn same_number(ours: &Shared, its: &Shared, number: u64) -> bool
    ensures { IsTrue result → packet_of ours.now number ≡ packet_of its.now number }
{
    match (ours.live_packet(number), its.live_packet(number)) {
        (Some(ours), Some(its)) => same_packet(ours, its),
        (None, None) => true,
        _ => false,
    }
}

/// Whether the live packets are the same.
pub(crate) fn same_packets(ours: &Shared, its: &Shared) -> bool
    ensures { IsTrue result → SamePackets ours.now its.now ours.now.issued }
{
    for number in 0..ours.issued() {
        if !same_number(ours, its, number) {
            return false;
        }
    }
    true
}
