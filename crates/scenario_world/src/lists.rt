//! The lists of devices, and their current slots.

ghost use Rattle.std.specs.Prelude.{◌≡◌, option_map, slice_get};
ghost use Rattle.model.specs.World.{start_of};
ghost use Rattle.scenario_world.specs.Expected.{are_entries, entries_of, has_at, has_entries};
ghost use Rattle.scenario_world.specs.Expected.{has_entry, is_current};

use checked::Checked;
use devqueue::Guarded;
use scenario_expected::expectation::List;

/// A list of a device, if there is one.
pub fn entries_of(machine: &Checked, device: u8, list: List) -> Option<&Guarded>
    ensures { option_map (λ entries. entries.now) result
        ≡ entries_of machine.now.world.shared device list }
{
    let shared = machine.shared();
    match list {
        List::Queue(queue) => shared.queue(device, queue),
        List::StartList => match shared.start_of(device) {
            Some(start) => Some(start.start_list()),
            None => None,
        },
        List::DeviceQueue => match shared.start_of(device) {
            Some(start) => Some(start.waiting()),
            None => None,
        },
    }
}

/// Whether a packet stands in a list of a device.
pub fn has_entry(machine: &Checked, n: u64, device: u8, list: List) -> bool
    ensures { result ≡ has_entry n (entries_of machine.now.world.shared device list) }
{
    match entries_of(machine, device, list) {
        Some(entries) => entries.has(n),
        None => false,
    }
}

/// Whether these packets stand in a list of a device and no others, in this order.
pub fn has_entries(machine: &Checked, numbers: &[Option<u64>], device: u8, list: List) -> bool
    ensures { result
        ≡ has_entries numbers.now (entries_of machine.now.world.shared device list) }
{
    match entries_of(machine, device, list) {
        Some(entries) => are_entries(entries, numbers),
        None => false,
    }
}

/// Whether these packets stand in a list and no others, in this order.
#[tactic(auto, using(crate::proofs::Entries::entry_on, crate::proofs::Entries::entry_off, crate::proofs::Entries::entry_within, crate::proofs::Entries::entries_over))]
fn are_entries(entries: &Guarded, numbers: &[Option<u64>]) -> bool
    ensures { result ≡ are_entries entries.now numbers.now }
{
    let mut place: usize = 0;
    for number in numbers {
        if !has_at(entries, place, *number) {
            return false;
        }
        place += 1;
    }
    place == entries.len()
}

/// Whether a packet stands at a place of a list.
fn has_at(entries: &Guarded, place: usize, number: Option<u64>) -> bool
    ensures { result ≡ has_at (slice_get entries.now place) number }
{
    match entries.entry(place) {
        Some(entry) => number == Some(entry),
        None => false,
    }
}

/// Whether a packet is in the current slot of a device.
pub fn is_current(machine: &Checked, n: u64, device: u8) -> bool
    ensures { result ≡ is_current n (start_of machine.now.world.shared device) }
{
    match machine.shared().start_of(device) {
        Some(start) => start.current() == Some(n),
        None => false,
    }
}
