//! The type of a driver set.

ghost use Rattle.std.specs.Prelude.{◌≡◌, ◌<◌, ◌↔◌, ℕ, IsOk, IfOk, IfErr, IfSome, slice_get};
ghost use Rattle.std.specs.Prelude.{option_and_then, option_map};
ghost use Rattle.model.specs.Set.{default_code};
ghost use Rattle.model.specs.declared.limits.TheConstants.{MAX_INSTRUCTIONS};

use crate::sound::is_sound;
use model::instr::{Instr, Register, Return, SpinLock};
use model::limits::DEFAULT_ROUTINE;
use model::set::{Device, Driver, Guard, QueueName, Routine, Sort};
use model::status::{Major, Status};
use std::marker::Model;

/// A set of drivers and devices, each numbered in order from 0. Its type keeps the counts and stack
/// sizes within their limits, and that every number names a thing that is there.
#[derive(Drop)]
pub struct DriverSet {
    driver_list: Vec<Driver>,
    device_list: Vec<Device>,
}

impl Model for DriverSet {
    ghost use Rattle.model.specs.Set.{Set};
    ghost use Rattle.model.specs.Sound.{IsSound};

    ghost Value = { Set };

    ghost view = { λ s. record { drivers = s.driver_list.items; devices = s.device_list.items } };

    ghost invariant = { λ s. IsSound
        (record { drivers = s.driver_list.items; devices = s.device_list.items }) };
}

impl DriverSet {
    ghost use Rattle.model.specs.Set.{Set, serving, instruction_at, sort_of, lower_of};
    ghost use Rattle.model.specs.Set.{startio_of, dpc_of, guard_of, cancel_routine_of};
    ghost use Rattle.model.specs.Set.{guard_named, cancel_routine_named, has_cancel};
    ghost use Rattle.model.specs.LocalRule.{has_startio};
    ghost use Rattle.model.specs.Sound.{IsSound};

    /// The set of these drivers and devices. They are handed back exactly where they break a limit
    /// or a number in them names nothing. Empty lists are a set.
    pub fn of(
        drivers: Vec<Driver>,
        devices: Vec<Device>,
    ) -> Result<DriverSet, (Vec<Driver>, Vec<Device>)>
        ensures sound { IsOk result
            ↔ IsSound (record { drivers = drivers.items; devices = devices.items }) }
        ensures set { IfOk result
            (λ set. set ≡ record { drivers = drivers.items; devices = devices.items }) }
        ensures back { IfErr result (λ lists. lists ≡ record { 0 = drivers; 1 = devices }) }
    {
        if is_sound(drivers.as_slice(), devices.as_slice()) {
            Ok(DriverSet::of_sound(drivers, devices))
        } else {
            Err((drivers, devices))
        }
    }

    /// The set of drivers and devices that are known to make one: nothing is tested.
    pub fn of_sound(drivers: Vec<Driver>, devices: Vec<Device>) -> DriverSet
        requires { IsSound (record { drivers = drivers.items; devices = devices.items }) }
        ensures { result ≡ record { drivers = drivers.items; devices = devices.items } }
    {
        DriverSet {
            driver_list: drivers,
            device_list: devices,
        }
    }

    /// Its drivers, by number.
    pub fn drivers(&self) -> &[Driver]
        ensures drivers { result.now ≡ self.now.drivers }
        ensures sound { IsSound self.now }
    {
        self.driver_list.as_slice()
    }

    /// Its devices, by number.
    pub fn devices(&self) -> &[Device]
        ensures devices { result.now ≡ self.now.devices }
        ensures sound { IsSound self.now }
    {
        self.device_list.as_slice()
    }

    /// The number of the routine that serves a major function for a driver: the default routine's
    /// where the driver names none.
    pub fn handler(&self, driver: u8, major: Major) -> u8
        ensures { result ≡ serving (slice_get self.now.drivers driver) major }
    {
        self.drivers()
            .get(driver as usize)
            .and_then(|driver| driver.handler(major))
            .unwrap_or(DEFAULT_ROUTINE)
    }

    /// The number of the StartIo routine of a device: that of its driver, if it has one.
    pub fn startio(&self, device: u8) -> Option<u8>
        ensures { result ≡ startio_of self.now device }
    {
        let device = self.devices().get(device as usize)?;
        self.drivers().get(device.driver as usize)?.startio
    }

    /// The number of the DPC routine of a device: that of its driver, if it has one.
    pub fn dpc(&self, device: u8) -> Option<u8>
        ensures { result ≡ dpc_of self.now device }
    {
        let device = self.devices().get(device as usize)?;
        self.drivers().get(device.driver as usize)?.dpc
    }

    /// Whether a driver has a StartIo routine.
    pub fn has_startio(&self, driver: u8) -> bool
        ensures { result ≡ has_startio self.now driver }
    {
        match self.drivers().get(driver as usize) {
            Some(driver) => driver.startio.is_some(),
            None => false,
        }
    }

    /// The spin lock that guards a queue of a driver.
    pub fn guard(&self, driver: u8, queue: u8) -> Option<SpinLock>
        ensures { result ≡ guard_of self.now driver queue }
    {
        let driver = self.drivers().get(driver as usize)?;
        let queue = driver.queues.as_slice().get(queue as usize)?;
        Some(queue.guard)
    }

    /// The number of the cancel routine of a queue of a driver, if it has one.
    pub fn cancel_routine(&self, driver: u8, queue: u8) -> Option<u8>
        ensures { result ≡ cancel_routine_of self.now driver queue }
    {
        let driver = self.drivers().get(driver as usize)?;
        driver.queues.as_slice().get(queue as usize)?.cancel
    }

    /// The lock that guards a list of a driver: the device queue is the system cancel lock's.
    pub fn guard_named(&self, driver: u8, name: QueueName) -> Option<Guard>
        ensures { result ≡ guard_named self.now driver name }
    {
        match name {
            QueueName::Declared(queue) => Some(Guard::DeviceLock(self.guard(driver, queue)?)),
            QueueName::DeviceQueue => Some(Guard::CancelLock),
        }
    }

    /// The number of the cancel routine of a list of a driver, if it has one.
    pub fn cancel_routine_named(&self, driver: u8, name: QueueName) -> Option<u8>
        ensures { result ≡ cancel_routine_named self.now driver name }
    {
        match name {
            QueueName::Declared(queue) => self.cancel_routine(driver, queue),
            QueueName::DeviceQueue => self.drivers().get(driver as usize)?.startio_cancel,
        }
    }

    /// Whether a list of a driver has a cancel routine.
    pub fn has_cancel(&self, driver: u8, name: QueueName) -> bool
        ensures { result ≡ has_cancel self.now driver name }
    {
        self.cancel_routine_named(driver, name).is_some()
    }

    /// The sort of a routine of a driver, the default routine's among them.
    pub fn sort(&self, driver: u8, routine: u8) -> Sort
        ensures { result ≡ sort_of self.now driver routine }
    {
        if routine == DEFAULT_ROUTINE {
            return Sort::Dispatch;
        }
        match self.routine(driver, routine) {
            Some(routine) => routine.sort,
            None => Sort::Dispatch,
        }
    }

    /// A routine of a driver of the set.
    fn routine(&self, driver: u8, routine: u8) -> Option<&Routine>
        ensures { option_map (λ r. r.now) result
            ≡ option_and_then (λ d. slice_get d.routines routine)
            (slice_get self.now.drivers driver) }
    {
        self.drivers()
            .get(driver as usize)?
            .routines
            .as_slice()
            .get(routine as usize)
    }

    /// The number of the device under a device.
    pub fn lower(&self, device: u8) -> Option<u8>
        ensures { result ≡ lower_of self.now device }
    {
        self.devices().get(device as usize)?.lower
    }

    /// The instruction at a position of a routine of a driver, the default routine's among them.
    pub fn instruction(&self, driver: u8, routine: u8, position: u16) -> Option<Instr>
        ensures instruction { result ≡ instruction_at self.now driver routine position }
        ensures near { IfSome result (λ _. position < MAX_INSTRUCTIONS) }
    {
        if routine == DEFAULT_ROUTINE {
            return default_instruction(position);
        }
        let driver = self.drivers().get(driver as usize)?;
        let routine = driver.routines.as_slice().get(routine as usize)?;
        routine.code.as_slice().get(position as usize).copied()
    }
}

/// The default routine: it completes the packet in its first register with
/// STATUS_INVALID_DEVICE_REQUEST, and returns that status.
fn default_instruction(position: u16) -> Option<Instr>
    ensures instruction { result ≡ slice_get default_code position }
    ensures near { IfSome result (λ _. position < 2) }
{
    match position {
        0 => Some(Instr::Complete(Register::FIRST, Status::InvalidDeviceRequest)),
        1 => Some(Instr::Ret(Return::WithStatus(Status::InvalidDeviceRequest))),
        _ => None,
    }
}
