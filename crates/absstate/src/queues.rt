//! What queues, the device queue and the token of a busy device demand: a list is touched under its
//! guard, and who has the token begins a packet or starts the next one.

ghost use Rattle.std.specs.Prelude.{◌≡◌};
ghost use Rattle.model.specs.LocalRule.{kind_of, least_of, unless, demanded, an_owned_one};
ghost use Rattle.model.specs.LocalRule.{free_kind, guard_fault, has_startio, is_dpc, take_fault};
ghost use Rattle.model.specs.LocalRule.{waiting_fault};

use crate::fault::{Wanted, broken_if, demanded, free_fault, least, unless};
use crate::state::{holds_guard, kind};
use driver_set::DriverSet;
use model::abs::{Abs, Rule};
use model::instr::Register;
use model::set::{QueueName, Sort};

/// `insert` wants a packet that the routine owns, and the guard of the queue.
pub fn insert_fault(
    state: &Abs,
    register: Register,
    set: &DriverSet,
    driver: u8,
    queue: u8,
) -> Option<Rule>
    ensures { result
        ≡ least_of (demanded an_owned_one (kind_of state.now register))
        (guard_fault state.now set.now driver (QueueName.Declared queue)) }
{
    let packet = demanded(Wanted::OWN, kind(state, register));
    let name = QueueName::Declared(queue);
    least(packet, guard_fault(state, set, driver, name))
}

/// A list is touched while its guard is held.
pub fn guard_fault(state: &Abs, set: &DriverSet, driver: u8, name: QueueName) -> Option<Rule>
    ensures { result ≡ guard_fault state.now set.now driver name }
{
    match set.guard_named(driver, name) {
        Some(guard) => unless(holds_guard(state, &guard), Rule::Guard),
        None => Some(Rule::Guard),
    }
}

/// Where packets of the device queue have a cancel routine, its guard is held while one may be put
/// into it, or the first one is started.
fn waiting_fault(state: &Abs, set: &DriverSet, driver: u8) -> Option<Rule>
    ensures { result ≡ waiting_fault state.now set.now driver }
{
    if set.has_cancel(driver, QueueName::DeviceQueue) {
        guard_fault(state, set, driver, QueueName::DeviceQueue)
    } else {
        None
    }
}

/// `start` wants a packet that the routine owns, a driver with a StartIo routine, and the guard of
/// the device queue where packets in it can be cancelled.
pub fn start_fault(state: &Abs, register: Register, set: &DriverSet, driver: u8) -> Option<Rule>
    ensures { result
        ≡ least_of (demanded an_owned_one (kind_of state.now register))
        (least_of (waiting_fault state.now set.now driver)
        (unless (has_startio set.now driver) Rule.Sort)) }
{
    let sorted = unless(set.has_startio(driver), Rule::Sort);
    least(
        demanded(Wanted::OWN, kind(state, register)),
        least(waiting_fault(state, set, driver), sorted),
    )
}

/// `take` wants a DPC routine without the token, and a register for the packet.
pub fn take_fault(state: &Abs, to: Register, sort: Sort) -> Option<Rule>
    ensures { result
        ≡ least_of (take_fault state.now sort) (free_kind (kind_of state.now to)) }
{
    let doubled = broken_if(state.token, Rule::Token);
    let sorted = least(doubled, unless(is_dpc(sort), Rule::Sort));
    least(sorted, free_fault(state, to))
}

fn is_dpc(sort: Sort) -> bool
    ensures { result ≡ is_dpc sort }
{
    match sort {
        Sort::Dispatch | Sort::StartIo | Sort::Propagate | Sort::Hold | Sort::Cancel => false,
        Sort::Dpc => true,
    }
}

/// `begin` wants a packet that the routine owns, and the token.
pub fn begin_fault(state: &Abs, register: Register) -> Option<Rule>
    ensures { result
        ≡ least_of (demanded an_owned_one (kind_of state.now register))
        (unless state.now.token Rule.Token) }
{
    least(
        demanded(Wanted::OWN, kind(state, register)),
        token_fault(state),
    )
}

/// `next` wants the token, and the guard of the device queue where packets in it can be cancelled.
pub fn next_fault(state: &Abs, set: &DriverSet, driver: u8) -> Option<Rule>
    ensures { result
        ≡ least_of (waiting_fault state.now set.now driver) (unless state.now.token Rule.Token) }
{
    least(waiting_fault(state, set, driver), token_fault(state))
}

fn token_fault(state: &Abs) -> Option<Rule>
    ensures { result ≡ unless state.now.token Rule.Token }
{
    unless(state.token, Rule::Token)
}
