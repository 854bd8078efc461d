//! The shortest cycle of edges between locks, where no places can be given.

ghost use Rattle.std.specs.Prelude.{◌≡◌, ◌<◌, ◌+◌, ◌↔◌, IfOk, IfSome, IsTrue, None};
ghost use Rattle.verifier_orders.specs.Cycle.{AreBehind, AreFirst, AreOneBack, HasWay, IsFirstOf};
ghost use Rattle.verifier_orders.specs.Cycle.{IsLeastCycle, LeadsBack, LeadsOn, OfNone, Returns};
ghost use Rattle.verifier_orders.specs.Ranking.{AreWithin, HasNowhere, IsStuck};

use crate::ranking::{LOCKS, NumberedEdge};
use std::alloc::{AllocError, Global};

/// The first edge from a lock to one of some.
fn edge_on(edges: &[NumberedEdge], ahead: &[bool; LOCKS], lock: u8) -> Option<NumberedEdge>
    requires { AreWithin edges.now }
    ensures some { IfSome result (IsFirstOf edges.now (LeadsOn ahead.now lock)) }
    ensures none { result ≡ None → OfNone edges.now (LeadsOn ahead.now lock) }
{
    for edge in edges {
        if edge.held == lock && ahead[edge.taken as usize] {
            return Some(*edge);
        }
    }
    None
}

/// The locks from which an edge leads to one of some.
fn one_back(edges: &[NumberedEdge], ahead: &[bool; LOCKS]) -> [bool; LOCKS]
    requires { AreWithin edges.now }
    ensures { AreOneBack edges.now ahead.now result }
{
    let mut behind = [false; LOCKS];
    for lock in 0..LOCKS as u8 {
        behind[lock as usize] = edge_on(edges, ahead, lock).is_some();
    }
    behind
}

/// The locks from which so many edges lead to one.
fn locks_behind(edges: &[NumberedEdge], to: u8, count: u8) -> [bool; LOCKS]
    requires within { AreWithin edges.now }
    requires low { to < 9 }
    ensures { AreBehind edges.now to count result }
{
    let mut behind = [false; LOCKS];
    behind[to as usize] = true;
    for _turn in 0..count {
        behind = one_back(edges, &behind);
    }
    behind
}

/// The first edge from which so many lead back to where it begins.
fn first_edge(edges: &[NumberedEdge], more: u8) -> Option<NumberedEdge>
    requires { AreWithin edges.now }
    ensures some { IfSome result (IsFirstOf edges.now (Returns edges.now more)) }
    ensures none { result ≡ None → OfNone edges.now (Returns edges.now more) }
{
    for edge in edges {
        if locks_behind(edges, edge.held, more)[edge.taken as usize] {
            return Some(*edge);
        }
    }
    None
}

/// Adds to a cycle's first edge the so many that lead back, each the first that can be.
fn lead_back(
    alloc: Global,
    edges: &[NumberedEdge],
    first: NumberedEdge,
    more: u8,
) -> Result<Vec<NumberedEdge>, AllocError>
    requires within { AreWithin edges.now }
    requires begins { IsFirstOf edges.now (Returns edges.now more) first }
    ensures { IfOk result (λ cycle. LeadsBack edges.now first more cycle.items) }
{
    let mut cycle = Vec::new(alloc);
    cycle.push(first)?;
    let mut at = first.taken;
    for done in 0..more {
        let ahead = locks_behind(edges, first.held, more - 1 - done);
        let Some(edge) = edge_on(edges, &ahead, at) else {
            unreachable!()
        };
        cycle.push(edge)?;
        at = edge.taken;
    }
    Ok(cycle)
}

/// A shortest cycle of edges, of such the one whose edges come first, where to each lock without a
/// place an edge leads from another such.
///
/// # Errors
///
/// When memory runs out.
pub fn shortest_cycle(
    alloc: Global,
    edges: &[NumberedEdge],
    places: &[u8; LOCKS],
) -> Result<Vec<NumberedEdge>, AllocError>
    requires within { AreWithin edges.now }
    requires stuck { IsStuck edges.now places.now }
    requires some { HasNowhere places.now }
    ensures { IfOk result (λ cycle. IsLeastCycle edges.now cycle.items) }
{
    for more in 0..LOCKS as u8 {
        if let Some(first) = first_edge(edges, more) {
            return lead_back(alloc, edges, first, more);
        }
    }
    unreachable!()
}
