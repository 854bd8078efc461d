//! Which list of its driver a cancel routine serves.

ghost use Rattle.std.specs.Prelude.{◌≡◌, ◌≤◌, ◌∷◌, length, if◌then◌else◌};
ghost use Rattle.model.specs.declared.limits.TheConstants.{MAX_QUEUES};
ghost use Rattle.model.specs.Set.{cancels_for, cancelled_from, only_one, is_named};

use driver_set::DriverSet;
use model::set::{Queue, QueueName};

/// The one list whose cancel routine a routine of a driver is, if it is that of exactly one.
pub fn cancels_for(set: &DriverSet, driver: u8, number: u8) -> Option<QueueName>
    ensures { result ≡ cancels_for set.now driver number }
{
    let driver = set.drivers().get(driver as usize)?;
    let waiting = is_named(driver.startio_cancel, number);
    only_named(waiting, driver.queues.as_slice(), number)
}

/// The one list whose cancel routine has a number, of the device queue, if its cancel routine has,
/// and of the queues.
fn only_named(waiting: bool, queues: &[Queue], number: u8) -> Option<QueueName>
    requires { length queues.now ≤ MAX_QUEUES }
    ensures { result
        ≡ only_one
        (if waiting then QueueName.DeviceQueue ∷ cancelled_from queues.now 0 number
        else cancelled_from queues.now 0 number) }
{
    let mut named = if waiting {
        Some(QueueName::DeviceQueue)
    } else {
        None
    };
    for (q, queue) in queues.iter().enumerate() {
        if !is_named(queue.cancel, number) {
            continue;
        }
        if named.is_some() {
            return None;
        }
        named = Some(QueueName::Declared(q as u8));
    }
    named
}

fn is_named(cancel: Option<u8>, number: u8) -> bool
    ensures { result ≡ is_named cancel number }
{
    match cancel {
        Some(cancel) => cancel == number,
        None => false,
    }
}
