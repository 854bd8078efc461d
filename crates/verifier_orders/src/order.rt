//! The order of the locks of each driver.

ghost use Rattle.std.specs.Prelude.{IfOk, length};
ghost use Rattle.laws_runs.specs.Order.{HasLockOrders};
ghost use Rattle.verifier_orders.specs.Edges.{AreEdgesOf};
ghost use Rattle.verifier_orders.specs.Orders.{AreAllOrdered, AreLockOrders, AreOrdered};
ghost use Rattle.verifier_orders.specs.Orders.{AreOrderedSo, ArePairs, IsLockOrder};
ghost use Rattle.verifier_orders.specs.Ranking.{AreRanked};

use crate::cycle::shortest_cycle;
use crate::edges::edges_of;
use crate::names::{Edge, edges_named, locks_by_place};
use crate::paired::paired_locks;
use crate::ranking::{LOCKS, NumberedEdge, rank};
use model::set::Guard;
use std::alloc::{AllocError, Global};
use verifier::Accepted;

/// What a driver's routines make of its nine locks: the eight spin locks of a device and the system
/// cancel spin lock.
#[derive(Drop)]
pub enum LockOrder {
    /// The nine in an order.
    Ordered(Locks),
    /// There is no order, and no cycle is shorter. Each edge takes the lock under which the next
    /// one is taken, and the last the one under which the first is. Of the shortest it is the one
    /// whose edges come first, by routine and position.
    Cycle(Vec<Edge>),
}

/// The locks of a driver in an order: none is taken while a later one is held, or itself.
#[derive(Drop)]
pub struct Locks {
    /// All nine.
    pub all: Vec<Guard>,
    /// Those of which a routine takes one while it holds another. There is none where no routine
    /// holds two locks at once.
    pub paired: Vec<Guard>,
}

/// The order of a driver's locks, or a shortest cycle.
fn order_of(alloc: Global, accepted: &Accepted, driver: u8) -> Result<LockOrder, AllocError>
    ensures { IfOk result (IsLockOrder accepted.now driver) }
{
    let _drivers = accepted.set().drivers();
    let edges = edges_of(alloc, accepted, driver)?;
    match rank(edges.as_slice()) {
        Ok(places) => Ok(LockOrder::Ordered(locks_of(
            alloc,
            accepted,
            driver,
            edges.as_slice(),
            &places,
        )?)),
        Err(places) => {
            let cycle = shortest_cycle(alloc, edges.as_slice(), &places)?;
            Ok(LockOrder::Cycle(edges_named(alloc, cycle.as_slice())?))
        }
    }
}

/// For each driver of an accepted set its locks in an order, or a shortest cycle, exactly if there
/// is none.
///
/// # Errors
///
/// When memory runs out.
pub fn orders_of(alloc: Global, accepted: &Accepted) -> Result<Vec<LockOrder>, AllocError>
    ensures each { IfOk result
        (λ orders. AreLockOrders accepted.now (length accepted.now.drivers) orders.items) }
    ensures all { IfOk result
        (λ orders. AreAllOrdered orders.items → HasLockOrders accepted.now) }
{
    let mut orders = Vec::new(alloc);
    for driver in 0..accepted.set().drivers().len() {
        orders.push(order_of(alloc, accepted, driver as u8)?)?;
    }
    Ok(orders)
}

/// The locks of a driver by their places, and those that are in pairs, where its edges lead to later
/// places.
fn locks_of(
    alloc: Global,
    accepted: &Accepted,
    driver: u8,
    edges: &[NumberedEdge],
    places: &[u8; LOCKS],
) -> Result<Locks, AllocError>
    requires edges { AreEdgesOf accepted.now driver edges.now }
    requires ranked { AreRanked edges.now places.now }
    ensures { IfOk result (AreOrderedSo accepted.now driver) }
{
    let all = in_order(alloc, accepted, driver, edges, places)?;
    let paired = paired_locks(alloc, accepted, driver, edges, all.as_slice())?;
    Ok(Locks { all, paired })
}

/// The nine locks of a driver by their places, where its edges lead to later places.
fn in_order(
    alloc: Global,
    accepted: &Accepted,
    driver: u8,
    edges: &[NumberedEdge],
    places: &[u8; LOCKS],
) -> Result<Vec<Guard>, AllocError>
    requires edges { AreEdgesOf accepted.now driver edges.now }
    requires ranked { AreRanked edges.now places.now }
    ensures { IfOk result (λ locks. AreOrdered accepted.now driver locks.items) }
{
    let _drivers = accepted.set().drivers();
    let locks = locks_by_place(alloc, places)?;
    Ok(locks)
}

/// Which lock the routines of a driver of an accepted set take while they hold which, by the
/// driver's edges: a place for each two such locks, by routine and position. There is none where no
/// routine holds two locks at once.
pub(crate) fn pairs_of(
    alloc: Global,
    accepted: &Accepted,
    driver: u8,
    edges: &[NumberedEdge],
) -> Result<Vec<Edge>, AllocError>
    requires { AreEdgesOf accepted.now driver edges.now }
    ensures { IfOk result (λ pairs. ArePairs accepted.now driver pairs.items) }
{
    let _drivers = accepted.set().drivers();
    let pairs = edges_named(alloc, edges)?;
    Ok(pairs)
}
