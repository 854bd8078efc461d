//! The order of the locks of a driver of the set that bytes name.

ghost use Rattle.std.specs.Prelude.{◌≡◌, ◌<◌, IfErr, IfOk, Some, length, slice_get};
ghost use Rattle.pafteis_world.specs.Judged.{IsTurnedAway};
ghost use Rattle.pafteis_world.specs.Locks.{OrdersLocks};

use crate::admitting::admit;
use pafteis_values::verdict::Verdict;
use std::alloc::Global;
use verifier_orders::{LockOrder, orders_of};

/// Of the set that the bytes of a text or of an image name the order of a driver's locks, or a
/// shortest cycle where they have none: nothing where there is no driver of this number. Else why
/// the set isn't accepted.
pub fn lock_order(alloc: Global, bytes: &[u8], driver: u8) -> Result<Option<LockOrder>, Verdict>
    ensures orders { IfOk result (OrdersLocks bytes.now driver) }
    ensures turned_away { IfErr result (IsTurnedAway bytes.now) }
{
    let accepted = match admit(alloc, bytes) {
        Ok(accepted) => accepted,
        Err(verdict) => return Err(verdict),
    };
    let Ok(mut orders) = orders_of(alloc, &accepted) else {
        return Err(Verdict::NoMemory);
    };
    let place = driver as usize;
    if place < accepted.set().drivers().len() {
        Ok(Some(orders.remove(place)))
    } else {
        Ok(None)
    }
}
