//! Locks and edges by name, for those who read of them.

ghost use Rattle.std.specs.Prelude.{◌≡◌, ◌<◌, IfOk};
ghost use Rattle.verifier_orders.specs.Names.{AreByPlace, all_named, guard_of};
ghost use Rattle.verifier_orders.specs.Ranking.{AreFilled, AreWithin};

use crate::ranking::{LOCKS, NumberedEdge, lock_at};
use model::set::Guard;
use model::spin_lock::SpinLock;
use std::alloc::{AllocError, Global};

/// A routine of a driver takes a lock while it holds another.
#[derive(Clone, Copy)]
pub struct Edge {
    /// The lock that it holds.
    pub held: Guard,
    /// The lock that it takes.
    pub taken: Guard,
    /// The routine's number in the driver.
    pub routine: u8,
    /// The position of the instruction that takes the lock.
    pub at: u16,
}

/// The lock of a number.
fn lock_named(number: u8) -> Guard
    requires { number < 9 }
    ensures { result ≡ guard_of number }
{
    match SpinLock::of(number) {
        Some(lock) => Guard::DeviceLock(lock),
        None => Guard::CancelLock,
    }
}

/// Edges by name.
pub fn edges_named(alloc: Global, edges: &[NumberedEdge]) -> Result<Vec<Edge>, AllocError>
    requires { AreWithin edges.now }
    ensures { IfOk result (λ named. named.items ≡ all_named edges.now) }
{
    let mut named = Vec::new(alloc);
    for place in 0..edges.len() {
        let edge = edges[place];
        let held: Guard = lock_named(edge.held);
        let taken: Guard = lock_named(edge.taken);
        named.push(Edge {
            held,
            taken,
            routine: edge.routine,
            at: edge.at,
        })?;
    }
    Ok(named)
}

/// The nine locks in the order of their places.
pub fn locks_by_place(alloc: Global, places: &[u8; LOCKS]) -> Result<Vec<Guard>, AllocError>
    requires { AreFilled places.now }
    ensures { IfOk result (λ locks. AreByPlace places.now locks.items 9) }
{
    let mut locks = Vec::new(alloc);
    for place in 0..LOCKS as u8 {
        locks.push(lock_named(lock_at(places, place)))?;
    }
    Ok(locks)
}
