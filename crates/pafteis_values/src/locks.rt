//! The order of a driver's locks, or a cycle of them, as the header has it.

ghost use Rattle.std.specs.Prelude.{◌≡◌, slice_get};
ghost use Rattle.pafteis_values.specs.Locks.{edge_value, in_a_cycle, lock_value, order_value};
ghost use Rattle.pafteis_values.specs.Locks.{ordered};
ghost use Rattle.verifier_orders.specs.Edges.{number_of};

use model::set::Guard;
use verifier_orders::{Edge, LockOrder};

/// A routine takes a lock while it holds another. Locks are numbers: 0 to 7 the spin locks of a
/// device, 8 the system cancel spin lock.
#[repr(C)]
#[derive(Clone, Copy)]
pub struct LockEdgeValue {
    /// The instruction that takes the lock.
    pub position: u32,
    pub routine: u8,
    /// The lock that is held there.
    pub held: u8,
    /// The lock that is taken.
    pub taken: u8,
}

/// The locks of a driver in an order, or a cycle. Fields that tell nothing are 0.
#[repr(C)]
#[derive(Clone, Copy)]
pub struct LockOrderValue {
    /// How many edges the cycle has.
    pub edges: u64,
    /// 1 an order, 2 a cycle.
    pub kind: u32,
    /// The nine locks: none is taken while a later one is held, or itself.
    pub order: [u8; 9],
    /// The edges of the cycle as they are walked, the first nine of them: each takes the lock that
    /// is held at the next, and the last the one that is held at the first.
    pub cycle: [LockEdgeValue; 9],
}

/// What tells of no edge.
const NO_EDGE: LockEdgeValue = LockEdgeValue {
    position: 0,
    routine: 0,
    held: 0,
    taken: 0,
};

/// The number of a lock.
fn lock_number(lock: Guard) -> u8
    ensures { result ≡ number_of lock }
{
    match lock {
        Guard::DeviceLock(spin) => spin.index() as u8,
        Guard::CancelLock => 8,
    }
}

/// The number of the lock at a place.
fn lock_at(locks: &[Guard], place: usize) -> u8
    ensures { result ≡ lock_value (slice_get locks.now place) }
{
    match locks.get(place) {
        Some(lock) => lock_number(*lock),
        None => 0,
    }
}

/// The edge at a place, as a value.
fn edge_at(edges: &[Edge], place: usize) -> LockEdgeValue
    ensures { result ≡ edge_value (slice_get edges.now place) }
{
    match edges.get(place) {
        Some(edge) => LockEdgeValue {
            position: u32::from(edge.at),
            routine: edge.routine,
            held: lock_number(edge.held),
            taken: lock_number(edge.taken),
        },
        None => NO_EDGE,
    }
}

/// An order or a cycle as a value.
pub fn order_value(order: &LockOrder) -> LockOrderValue
    ensures { result ≡ order_value order.now }
{
    match order {
        LockOrder::Ordered(locks) => ordered(locks.all.as_slice()),
        LockOrder::Cycle(edges) => in_a_cycle(edges.as_slice()),
    }
}

/// Locks in an order, as a value.
fn ordered(locks: &[Guard]) -> LockOrderValue
    ensures { result ≡ ordered locks.now }
{
    LockOrderValue {
        edges: 0,
        kind: 1,
        order: [
            lock_at(locks, 0),
            lock_at(locks, 1),
            lock_at(locks, 2),
            lock_at(locks, 3),
            lock_at(locks, 4),
            lock_at(locks, 5),
            lock_at(locks, 6),
            lock_at(locks, 7),
            lock_at(locks, 8),
        ],
        cycle: [NO_EDGE; 9],
    }
}

/// Edges of a cycle, as a value.
fn in_a_cycle(edges: &[Edge]) -> LockOrderValue
    ensures { result ≡ in_a_cycle edges.now }
{
    LockOrderValue {
        edges: edges.len() as u64,
        kind: 2,
        order: [0; 9],
        cycle: [
            edge_at(edges, 0),
            edge_at(edges, 1),
            edge_at(edges, 2),
            edge_at(edges, 3),
            edge_at(edges, 4),
            edge_at(edges, 5),
            edge_at(edges, 6),
            edge_at(edges, 7),
            edge_at(edges, 8),
        ],
    }
}
