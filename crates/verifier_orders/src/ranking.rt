//! Places for the nine locks of a driver, so that each edge leads to a later place; or a cycle.

ghost use Rattle.std.specs.Prelude.{◌↔◌, ◌<◌, ◌≡◌, IfErr, IfOk, IfSome, IsTrue, None};
ghost use Rattle.verifier_orders.specs.Ranking.{AreRanked, AreWithin, HasAt, HasNowhere, IsAt};
ghost use Rattle.verifier_orders.specs.Ranking.{IsFree, IsOpen, IsStuck};

/// How many locks a driver has by name: the spin locks of a device, and the system cancel spin
/// lock.
pub const LOCKS: usize = 9;

/// A routine of a driver takes a lock while it holds another, at a position. Locks are numbered:
/// the spin locks of a device by their numbers, and the system cancel spin lock by 8.
#[derive(Clone, Copy)]
pub struct NumberedEdge {
    pub held: u8,
    pub taken: u8,
    pub routine: u8,
    pub at: u16,
}

/// The place of a lock that has none.
pub const NOWHERE: u8 = 9;

/// The first lock that has a place.
pub fn lock_at(places: &[u8; LOCKS], place: u8) -> u8
    requires { HasAt places.now place }
    ensures low { result < 9 }
    ensures at { IsAt places.now result place }
{
    for lock in 0..LOCKS as u8 {
        if places[lock as usize] == place {
            return lock;
        }
    }
    unreachable!()
}

/// Whether no edge leads to a lock from one that has no place.
fn is_open(edges: &[NumberedEdge], places: &[u8; LOCKS], lock: u8) -> bool
    requires { AreWithin edges.now }
    ensures { IsTrue result ↔ IsOpen edges.now places.now lock }
{
    !edges.iter().any(|edge| edge.taken == lock && places[edge.held as usize] == NOWHERE)
}

/// The first lock without a place to which no edge leads from such a one.
fn first_free(edges: &[NumberedEdge], places: &[u8; LOCKS]) -> Option<u8>
    requires { AreWithin edges.now }
    ensures free { IfSome result (IsFree edges.now places.now) }
    ensures stuck { result ≡ None → IsStuck edges.now places.now }
{
    for lock in 0..LOCKS as u8 {
        if places[lock as usize] == NOWHERE && is_open(edges, places, lock) {
            return Some(lock);
        }
    }
    None
}

/// A place for each lock, so that each edge leads to a later one; or the places of some, where to
/// each other lock an edge leads from another such.
pub fn rank(edges: &[NumberedEdge]) -> Result<[u8; LOCKS], [u8; LOCKS]>
    requires { AreWithin edges.now }
    ensures ranked { IfOk result (AreRanked edges.now) }
    ensures stuck { IfErr result (IsStuck edges.now) }
    ensures some { IfErr result HasNowhere }
{
    let mut places = [NOWHERE; LOCKS];
    for turn in 0..LOCKS as u8 {
        match first_free(edges, &places) {
            Some(lock) => places[lock as usize] = turn,
            None => return Err(places),
        }
    }
    Ok(places)
}
