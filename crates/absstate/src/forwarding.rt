//! What forwarding a packet breaks: it wants a lower device and room for it under every device of
//! the driver.

ghost use Rattle.std.specs.Prelude.{◌≡◌, ◌≤◌};
ghost use Rattle.model.specs.Forwarding.{lacks_lower, is_too_small, device_under, is_under};
ghost use Rattle.model.specs.LocalRule.{kind_of, least_of, broken_if, demanded, forward_fault};
ghost use Rattle.model.specs.LocalRule.{forward_sort_fault, hold_fault, is_held_by, is_hold};
ghost use Rattle.model.specs.Kinds.{is_new};
ghost use Rattle.model.specs.LocalRule.{a_new_one, one_handed_or_owned};

use crate::fault::{Wanted, broken_if, demanded, holds_lock, is_new, least};
use crate::state::kind;
use driver_set::DriverSet;
use model::abs::{Abs, Kind, Rule};
use model::instr::Register;
use model::set::{Device, Sort};

/// `pass` wants a packet that the routine was handed.
pub fn pass_fault(
    state: &Abs,
    register: Register,
    sort: Sort,
    set: &DriverSet,
    driver: u8,
) -> Option<Rule>
    ensures { result
        ≡ least_of (demanded a_new_one (kind_of state.now register))
        (forward_fault state.now sort set.now driver 0) }
{
    least(
        demanded(Wanted::NEW, kind(state, register)),
        forward_fault(state, sort, set, driver, 0),
    )
}

/// `call` wants a packet that the routine was handed or owns, and one that it owns where the
/// completion routine may hold it.
pub fn call_fault(
    state: &Abs,
    register: Register,
    completion: Option<u8>,
    sort: Sort,
    set: &DriverSet,
    driver: u8,
) -> Option<Rule>
    ensures { result
        ≡ least_of (demanded one_handed_or_owned (kind_of state.now register))
        (least_of (forward_fault state.now sort set.now driver 1)
        (hold_fault (kind_of state.now register) set.now driver completion)) }
{
    let kind = kind(state, register);
    let held = hold_fault(kind, set, driver, completion);
    least(
        demanded(Wanted::NEW_OR_OWN, kind),
        least(forward_fault(state, sort, set, driver, 1), held),
    )
}

/// A packet that wasn't marked isn't sent down with a completion routine that may hold it.
fn hold_fault(kind: Kind, set: &DriverSet, driver: u8, completion: Option<u8>) -> Option<Rule>
    ensures { result ≡ hold_fault kind set.now driver completion }
{
    let unmarked = is_new(kind) && is_held_by(set, driver, completion);
    broken_if(unmarked, Rule::Completion)
}

/// Whether the completion routine of this number may hold the packet.
fn is_held_by(set: &DriverSet, driver: u8, completion: Option<u8>) -> bool
    ensures { result ≡ is_held_by set.now driver completion }
{
    match completion {
        Some(number) => is_hold(set.sort(driver, number)),
        None => false,
    }
}

fn is_hold(sort: Sort) -> bool
    ensures { result ≡ is_hold sort }
{
    matches!(sort, Sort::Hold)
}

/// A packet is forwarded by a dispatch routine, while no lock is held, from devices that all have a
/// lower one and stack locations for it and so many more.
fn forward_fault(
    state: &Abs,
    sort: Sort,
    set: &DriverSet,
    driver: u8,
    locations: u8,
) -> Option<Rule>
    requires { locations ≤ 1 }
    ensures { result ≡ forward_fault state.now sort set.now driver locations }
{
    let small = broken_if(is_too_small(set, driver, locations), Rule::StackTooSmall);
    let under = least(small, broken_if(lacks_lower(set, driver), Rule::NoLower));
    let held = broken_if(holds_lock(state), Rule::LockHeld);
    least(held, least(forward_sort_fault(sort), under))
}

/// Only a dispatch routine forwards.
fn forward_sort_fault(sort: Sort) -> Option<Rule>
    ensures { result ≡ forward_sort_fault sort }
{
    match sort {
        Sort::Dispatch => None,
        Sort::StartIo | Sort::Dpc | Sort::Cancel => Some(Rule::Sort),
        Sort::Propagate | Sort::Hold => Some(Rule::Completion),
    }
}

/// Whether a device of the driver has no lower one.
fn lacks_lower(set: &DriverSet, driver: u8) -> bool
    ensures { result ≡ lacks_lower set.now driver }
{
    let devices = set.devices();
    devices
        .iter()
        .any(|device| device.driver == driver && device.lower.is_none())
}

/// Whether a device of the driver has fewer stack locations than its lower one and so many more.
fn is_too_small(set: &DriverSet, driver: u8, locations: u8) -> bool
    requires { locations ≤ 1 }
    ensures { result ≡ is_too_small set.now driver locations }
{
    let devices = set.devices();
    devices.iter().any(|device| device.driver == driver && is_under(set, device, locations))
}

/// Whether the device has fewer stack locations than the one under it and so many more.
fn is_under(set: &DriverSet, device: &Device, locations: u8) -> bool
    requires { locations ≤ 1 }
    ensures { result ≡ is_under locations device.now.stack (device_under set.now device.now) }
{
    match device_under(set, device) {
        Some(lower) => u16::from(device.stack) < u16::from(lower.stack) + u16::from(locations),
        None => false,
    }
}

/// The device under a device.
fn device_under(set: &DriverSet, device: &Device) -> Option<Device>
    ensures { result ≡ device_under set.now device.now }
{
    set.devices().get(device.lower? as usize).copied()
}
