//! The requests that a hunt tries: to each device, with each major function that a driver serves
//! and each argument that may matter.

ghost use Rattle.std.specs.Prelude.{◌≡◌, ◌++◌, IfOk, OnOk, length};
ghost use Rattle.std.specs.List.{list_any};
ghost use Rattle.hunt_facts.specs.Requests.{request_on, requests_below, requests_by, requests_with};
ghost use Rattle.hunt_facts.specs.Requests.{served_major, served_majors, serves};

use crate::arguments::Arguments;
use driver_set::DriverSet;
use model::event::Event;
use model::set::Driver;
use model::status::Major;
use std::alloc::{AllocError, Global};

/// The major functions of requests.
pub(crate) const MAJORS: [Major; 3] = [Major::Read, Major::Write, Major::Control];

/// A request that is tried.
#[derive(Clone, Copy)]
pub struct Request {
    pub device: u8,
    pub major: Major,
    pub argument: u64,
}

impl Request {
    /// Its arrival on a thread.
    pub fn on(self, thread: u8) -> Event
        ensures { result ≡ request_on thread self }
    {
        Event::Issue {
            thread,
            device: self.device,
            major: self.major,
            argument: self.argument,
        }
    }
}

/// The requests to each device of a set, with these arguments.
pub(crate) fn requests_of(
    alloc: Global,
    set: &DriverSet,
    arguments: &Arguments,
) -> Result<Vec<Request>, AllocError>
    ensures { IfOk result (λ requests. requests.items
        ≡ requests_below arguments.now (served_majors set.now.drivers) (length set.now.devices)) }
{
    let majors = served_majors(alloc, set.drivers())?;
    let devices = set.devices().len() as u8;
    let mut requests = Vec::new(alloc);
    for device in 0..devices {
        add_requests(&mut requests, arguments, device, majors.as_slice())?;
    }
    Ok(requests)
}

/// Adds the requests to a device, with each of these major functions.
fn add_requests(
    requests: &mut Vec<Request>,
    arguments: &Arguments,
    device: u8,
    majors: &[Major],
) -> Result<(), AllocError>
    ensures { OnOk result (requests.new.items
        ≡ requests.old.items ++ requests_by arguments.now device majors.now) }
{
    for major in majors {
        add_requests_with(
            requests,
            device,
            *major,
            arguments.of_request(device, *major),
        )?;
    }
    Ok(())
}

/// Adds the requests to a device with a major function, one for each of these arguments.
fn add_requests_with(
    requests: &mut Vec<Request>,
    device: u8,
    major: Major,
    arguments: &[u64],
) -> Result<(), AllocError>
    ensures { OnOk result (requests.new.items
        ≡ requests.old.items ++ requests_with device major arguments.now) }
{
    for argument in arguments {
        requests.push(Request {
            device,
            major,
            argument: *argument,
        })?;
    }
    Ok(())
}

/// The major functions that a driver serves.
fn served_majors(alloc: Global, drivers: &[Driver]) -> Result<Vec<Major>, AllocError>
    ensures { IfOk result (λ majors. majors.items ≡ served_majors drivers.now) }
{
    let mut majors = Vec::new(alloc);
    add_served(&mut majors, drivers, Major::Read)?;
    add_served(&mut majors, drivers, Major::Write)?;
    add_served(&mut majors, drivers, Major::Control)?;
    Ok(majors)
}

/// Adds a major function, if a driver serves it.
fn add_served(majors: &mut Vec<Major>, drivers: &[Driver], major: Major) -> Result<(), AllocError>
    ensures { OnOk result (majors.new.items ≡ majors.old.items ++ served_major drivers.now major) }
{
    if is_served(drivers, major) {
        majors.push(major)?;
    }
    Ok(())
}

/// Whether one of these drivers serves a major function.
fn is_served(drivers: &[Driver], major: Major) -> bool
    ensures { result ≡ list_any (serves major) drivers.now }
{
    drivers.iter().any(|driver| serves(major, driver))
}

/// Whether a driver serves a major function.
fn serves(major: Major, driver: &Driver) -> bool
    ensures { result ≡ serves major driver.now }
{
    driver.handler(major).is_some()
}
