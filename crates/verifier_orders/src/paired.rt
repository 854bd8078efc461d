//! The locks of a driver of which its routines take one while they hold another.

ghost use Rattle.std.specs.Prelude.{◌≡◌, IfOk};
ghost use Rattle.std.specs.List.{filter, list_any};
ghost use Rattle.verifier_orders.specs.Edges.{AreEdgesOf};
ghost use Rattle.verifier_orders.specs.Orders.{AreOrdered, ArePaired, is_in, is_of, same_lock};

use crate::names::Edge;
use crate::order::pairs_of;
use crate::ranking::NumberedEdge;
use model::set::Guard;
use std::alloc::{AllocError, Global};
use verifier::Accepted;

/// Whether two locks are the same.
fn are_same(lock: &Guard, other: &Guard) -> bool
    ensures { result ≡ same_lock lock.now other.now }
{
    match (lock, other) {
        (Guard::DeviceLock(spin), Guard::DeviceLock(another)) => spin.index() == another.index(),
        (Guard::CancelLock, Guard::CancelLock) => true,
        (Guard::DeviceLock(_), Guard::CancelLock) => false,
        (Guard::CancelLock, Guard::DeviceLock(_)) => false,
    }
}

/// Whether a lock is one of the two of an edge.
fn is_of(lock: &Guard, edge: &Edge) -> bool
    ensures { result ≡ is_of lock.now edge.now }
{
    are_same(&edge.held, lock) || are_same(&edge.taken, lock)
}

/// Whether a lock is one of those of some edges.
fn is_in(pairs: &[Edge], lock: &Guard) -> bool
    ensures { result ≡ is_in pairs.now lock.now }
{
    pairs.iter().any(|edge| is_of(lock, edge))
}

/// Those of some locks that are in edges.
fn locks_in(alloc: Global, pairs: &[Edge], locks: &[Guard]) -> Result<Vec<Guard>, AllocError>
    ensures { IfOk result (λ paired. paired.items ≡ filter (is_in pairs.now) locks.now) }
{
    let mut paired = Vec::new(alloc);
    for lock in locks {
        if is_in(pairs, lock) {
            paired.push(*lock)?;
        }
    }
    Ok(paired)
}

/// Of the locks of a driver of an accepted set, in their order, those of which a routine takes one
/// while it holds another, by the driver's edges.
pub(crate) fn paired_locks(
    alloc: Global,
    accepted: &Accepted,
    driver: u8,
    edges: &[NumberedEdge],
    locks: &[Guard],
) -> Result<Vec<Guard>, AllocError>
    requires edges { AreEdgesOf accepted.now driver edges.now }
    requires ordered { AreOrdered accepted.now driver locks.now }
    ensures { IfOk result (λ paired. ArePaired accepted.now driver paired.items) }
{
    let pairs = pairs_of(alloc, accepted, driver, edges)?;
    locks_in(alloc, pairs.as_slice(), locks)
}
