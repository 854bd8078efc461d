//! Orders of locks, as the library for C tells them.

use model::abs::Rule;
use pafteis_values::locks::{LockEdgeValue, LockOrderValue, order_value};
use pafteis_values::verdict::Verdict;
use pafteis_world::locks::lock_order;
use std::alloc::Global;
use std::test::Fail;
use tests_vectors::{BOTH_WAYS, ONE_READ_TEXT};

/// Reads take a spin lock under the system cancel spin lock, writes do it the other way round.
const UNDER_CANCEL: &[u8] = b"driver d\n\
      dispatch READ f\n\
      dispatch WRITE g\n\
      routine f dispatch\n\
      acqc\n\
      acquire l7\n\
      release l7\n\
      relc\n\
      complete r0 SUCCESS\n\
      ret SUCCESS\n\
      endr\n\
      routine g dispatch\n\
      acquire l7\n\
      acqc\n\
      relc\n\
      release l7\n\
      complete r0 SUCCESS\n\
      ret SUCCESS\n\
      endr\n\
      endd\n\
      device v d 1\n";

/// A driver that completes no read.
const DROPS: &[u8] =
    b"driver d\ndispatch READ f\nroutine f dispatch\nret SUCCESS\nendr\nendd\ndevice v d 1\n";

/// What is told of a driver's locks, if anything is.
fn told(alloc: Global, set: &[u8], driver: u8) -> Option<LockOrderValue> {
    match lock_order(alloc, set, driver) {
        Ok(Some(order)) => Some(order_value(&order)),
        _ => None,
    }
}

/// Whether an edge is of these locks, of a routine and at its second instruction.
fn is_edge(edge: LockEdgeValue, held: u8, taken: u8, routine: u8) -> bool {
    (edge.held, edge.taken, edge.routine, edge.position) == (held, taken, routine, 1)
}

/// Whether an edge tells nothing.
fn is_none(edge: LockEdgeValue) -> bool {
    (edge.held, edge.taken, edge.routine, edge.position) == (0, 0, 0, 0)
}

#[test]
fn locks_stand_in_an_order(rt: HostRuntime) -> Result<(), Fail> {
    let alloc = rt.alloc();
    let order = told(alloc, BOTH_WAYS, 0).expect(&rt, "an order");
    assert_eq!(rt; (order.kind, order.edges), (1, 0));
    let place = |lock: u8| order.order.iter().position(|other| *other == lock);
    for lock in 0..9 {
        assert!(rt; place(lock).is_some());
    }
    assert!(rt; place(1) < place(0));
    assert!(rt; order.cycle.iter().all(|edge| is_none(*edge)));
    assert!(rt; told(alloc, ONE_READ_TEXT, 0).is_some());
    Ok(())
}

#[test]
fn spin_locks_stand_in_a_cycle(rt: HostRuntime) -> Result<(), Fail> {
    let found = told(rt.alloc(), BOTH_WAYS, 1).expect(&rt, "a cycle");
    assert_eq!(rt; (found.kind, found.edges), (2, 2));
    assert!(rt; is_edge(found.cycle[0], 0, 1, 0));
    assert!(rt; is_edge(found.cycle[1], 1, 0, 1));
    assert!(rt; found.cycle[2..].iter().all(|edge| is_none(*edge)));
    assert!(rt; found.order.iter().all(|lock| *lock == 0));
    Ok(())
}

#[test]
fn a_cycle_goes_through_the_cancel_lock(rt: HostRuntime) -> Result<(), Fail> {
    let found = told(rt.alloc(), UNDER_CANCEL, 0).expect(&rt, "a cycle");
    assert_eq!(rt; (found.kind, found.edges), (2, 2));
    assert!(rt; is_edge(found.cycle[0], 8, 7, 0));
    assert!(rt; is_edge(found.cycle[1], 7, 8, 1));
    Ok(())
}

#[test]
fn no_order_is_told_of_what_is_not_there(rt: HostRuntime) -> Result<(), Fail> {
    let alloc = rt.alloc();
    assert!(rt; matches!(lock_order(alloc, BOTH_WAYS, 2), Ok(None)));
    assert!(rt; matches!(lock_order(alloc, BOTH_WAYS, 255), Ok(None)));
    let refused = lock_order(alloc, DROPS, 0);
    assert!(rt; matches!(refused, Err(Verdict::Refused(why)) if why.rule == Rule::Dropped));
    assert!(rt; matches!(lock_order(alloc, b"driver\n", 0), Err(Verdict::Text(_))));
    assert!(rt; matches!(lock_order(alloc, b"DVB1", 0), Err(Verdict::Image(_))));
    Ok(())
}
