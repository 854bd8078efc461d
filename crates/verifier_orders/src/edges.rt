//! The edges of a driver: which lock its routines take while they hold which.

ghost use Rattle.std.specs.Prelude.{◌↔◌, ◌≡◌, ◌<◌, ◌≤◌, slice_get, ◌+◌, IfOk, IfSome, IsTrue, OnOk};
ghost use Rattle.model.specs.Typable.{IsTypable};
ghost use Rattle.model.specs.Sound.{IsSound};
ghost use Rattle.verifier_orders.specs.Edges.{AreEdgesOf, AreEdgesTo, IsAdded, IsNew, AreAdded};
ghost use Rattle.verifier_orders.specs.Edges.{count_of, holds_number, number_taken};

use crate::ranking::{LOCKS, NumberedEdge};
use absstate::Abs;
use driver_set::DriverSet;
use model::instr::Instr;
use std::alloc::{AllocError, Global};
use verifier::Accepted;
use verifier_evidence::{Subject, arrivals_to};

/// The number of the system cancel spin lock.
const CANCEL: u8 = 8;

/// Whether a lock is held in a state.
fn holds(state: &Abs, lock: u8) -> bool
    requires { lock < 9 }
    ensures { result ≡ holds_number state.now lock }
{
    if lock == CANCEL {
        state.cancel
    } else {
        state.locks[lock as usize]
    }
}

/// The lock that an instruction takes.
fn taken_by(instr: &Instr) -> Option<u8>
    ensures taken { result ≡ number_taken instr.now }
    ensures few { IfSome result (λ lock. lock < 9) }
{
    match instr {
        Instr::Acquire(lock) => Some(lock.index() as u8),
        Instr::AcquireCancel => Some(CANCEL),
        _ => None,
    }
}

/// Whether no edge between two locks is there.
fn is_new(edges: &[NumberedEdge], held: u8, taken: u8) -> bool
    ensures { IsTrue result ↔ IsNew edges.now held taken }
{
    !edges
        .iter()
        .any(|edge| edge.taken == taken && edge.held == held)
}

/// Adds an edge if it is one, and the first between its locks.
fn add_if(edges: &mut Vec<NumberedEdge>, is: bool, edge: NumberedEdge) -> Result<(), AllocError>
    ensures { OnOk result (IsAdded is edge edges.old.items edges.new.items) }
{
    if is && is_new(edges.as_slice(), edge.held, edge.taken) {
        edges.push(edge)?;
    }
    Ok(())
}

/// Adds the edges that an instruction makes which takes a lock in a state.
fn add_from(
    edges: &mut Vec<NumberedEdge>,
    state: &Abs,
    taken: u8,
    routine: u8,
    at: u16,
) -> Result<(), AllocError>
    ensures { OnOk result
        (AreAdded state.now taken routine at 9 edges.old.items edges.new.items) }
{
    for held in 0..LOCKS as u8 {
        let edge = NumberedEdge {
            held,
            taken,
            routine,
            at,
        };
        add_if(edges, holds(state, held), edge)?;
    }
    Ok(())
}

/// Adds the edges of a routine of a driver.
fn add_routine(
    alloc: Global,
    set: &DriverSet,
    driver: u8,
    number: u8,
    edges: &mut Vec<NumberedEdge>,
) -> Result<(), AllocError>
    requires typable { IsTypable set.now }
    requires own { number < 255 }
    requires before { AreEdgesTo set.now driver number 0 edges.old.items }
    ensures { OnOk result (AreEdgesTo set.now driver (number + 1) 0 edges.new.items) }
{
    let Some(subject) = Subject::of(set, driver, number) else {
        return Ok(());
    };
    let code = subject.code();
    if code.is_empty() {
        return Ok(());
    }
    let table = arrivals_to(alloc, &subject, (code.len() - 1) as u16)?;
    for at in 0..code.len() {
        let Some(taken) = taken_by(&code[at]) else {
            continue;
        };
        let Some(arrival) = table[at] else {
            unreachable!()
        };
        add_from(edges, &arrival.state, taken, number, at as u16)?;
    }
    Ok(())
}

/// How many routines a driver has.
fn routine_count(set: &DriverSet, driver: u8) -> usize
    ensures count { result ≡ count_of (slice_get set.now.drivers driver) }
    ensures few { result ≤ 32 }
{
    match set.drivers().get(driver as usize) {
        Some(there) => there.routines.as_slice().len(),
        None => 0,
    }
}

/// The edges of a driver of an accepted set: for each two locks the first, by routine and position.
///
/// # Errors
///
/// When memory runs out.
pub fn edges_of(
    alloc: Global,
    accepted: &Accepted,
    driver: u8,
) -> Result<Vec<NumberedEdge>, AllocError>
    ensures { IfOk result (λ edges. AreEdgesOf accepted.now driver edges.items) }
{
    let set = accepted.set();
    let mut edges = Vec::new(alloc);
    for number in 0..routine_count(set, driver) {
        add_routine(alloc, set, driver, number as u8, &mut edges)?;
    }
    Ok(edges)
}
