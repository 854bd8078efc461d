//! What runs at random are drawn from.

use crate::turning::arguments_of;
use driver_set::{DriverSet, driver_of};
use hunt_facts::requests::Request;
use model::limits::DEFAULT_ROUTINE;
use model::status::Major;
use std::alloc::{AllocError, Global};

/// What runs at random are drawn from.
#[derive(Drop)]
pub(crate) struct Pool {
    /// The requests that a driver serves, once for each device and major function.
    pub(crate) requests: Vec<Request>,
    /// Their arguments.
    pub(crate) arguments: Vec<u64>,
}

impl Pool {
    /// That of a set to which these requests are tried.
    pub(crate) fn of(
        alloc: Global,
        set: &DriverSet,
        requests: &[Request],
    ) -> Result<Pool, AllocError> {
        Ok(Pool {
            requests: served(alloc, set, requests)?,
            arguments: arguments_of(alloc, set, requests)?,
        })
    }
}

/// Those of the requests that a driver serves, each without an argument.
fn served(
    alloc: Global,
    set: &DriverSet,
    requests: &[Request],
) -> Result<Vec<Request>, AllocError> {
    let mut served = Vec::new(alloc);
    for request in requests {
        if request.argument == 0 && is_served(set, request.device, request.major) {
            served.push(*request)?;
        }
    }
    Ok(served)
}

/// Whether the driver of a device, or of one under it, serves a major function.
fn is_served(set: &DriverSet, device: u8, major: Major) -> bool {
    let mut at = Some(device);
    for _device in 0..set.devices().len() {
        let Some(number) = at else {
            return false;
        };
        if set.handler(driver_of(set, number), major) != DEFAULT_ROUTINE {
            return true;
        }
        at = set.lower(number);
    }
    false
}
