//! The order of the locks of a driver.

ghost use Rattle.pafteis.specs.Asked.{OrdersLocksOf};

use crate::texts::WRONG_ARGUMENT;
use crate::worlds::DONE;
use pafteis_values::locks::{LockOrderValue, order_value};
use pafteis_values::verdict::{NOTHING, VerdictValue};
use pafteis_world::locks::lock_order;
use std::alloc::Global;

/// The locks of a driver, of the set that a text or an image names, in an order, or a shortest
/// cycle where they have none: 0 one of the two is told, 1 the set is refused, 2 faulty, 3 no
/// memory, 4 it has no driver of this number.
#[unsafe(no_mangle)]
pub extern "C" fn pafteis_order_of_locks(
    alloc: Global,
    set: &[u8],
    driver: u8,
    order: &mut LockOrderValue,
    verdict: &mut VerdictValue,
) -> u32
    ensures { OrdersLocksOf set.now driver order.old order.new verdict.new result }
{
    let found = match lock_order(alloc, set, driver) {
        Ok(found) => found,
        Err(why) => {
            *verdict = why.value();
            return why.status();
        }
    };
    *verdict = NOTHING;
    match found {
        Some(found) => {
            *order = order_value(&found);
            DONE
        }
        None => WRONG_ARGUMENT,
    }
}
