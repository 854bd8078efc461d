//! What arrives on the way to a place of a routine. Nothing leads back, and below the place of a
//! first fault one state alone arrives at each position: so one forward pass finds a way to
//! everything that is reached.

ghost use Rattle.std.specs.Prelude.{◌≡◌, ◌<◌, length, IfOk, slice_get};
ghost use Rattle.model.specs.declared.limits.TheConstants.{MAX_INSTRUCTIONS};
ghost use Rattle.model.specs.Set.{label_of};
ghost use Rattle.verifier_evidence.specs.Table.{noted, noted_outs, passed_on, AreKnown, AreFine};

use crate::subject::Subject;
use absstate::{Abs, Outs};
use std::alloc::{AllocError, Global};

/// An arrival at a position of a routine: the state that arrives, and the position that it came
/// from, if it isn't the one in which the routine is entered.
#[derive(Clone, Copy)]
pub struct Arrival {
    pub from: Option<u16>,
    pub state: Abs,
}

/// Notes an arrival at a position of the routine, if it is the first one there.
fn note(table: &mut [Option<Arrival>], to: usize, arrival: Arrival)
    ensures { table.new ≡ noted table.old to arrival }
{
    if to < table.len() && table[to].is_none() {
        table[to] = Some(arrival);
    }
}

/// Notes the states that an instruction at a position hands on.
fn note_outs(table: &mut [Option<Arrival>], from: u16, outs: &Outs, label: Option<u16>)
    requires { from < MAX_INSTRUCTIONS }
    ensures { table.new ≡ noted_outs outs.now label from table.old }
{
    let from_there = |state| Arrival {
        from: Some(from),
        state,
    };
    if let Some(state) = outs.next {
        note(table, from as usize + 1, from_there(state));
    }
    if let (Some(to), Some(state)) = (label, outs.jump) {
        note(table, to as usize, from_there(state));
    }
}

/// Takes what arrives at a position through the instruction there.
fn pass_on(subject: &Subject, table: &mut [Option<Arrival>], at: u16)
    requires within { at < length subject.now.routine.code }
    requires long { length table.old ≡ length subject.now.routine.code }
    ensures { table.new ≡ passed_on subject.now at table.old }
{
    let instr = &subject.code()[at as usize];
    let Some(arrival) = table[at as usize] else {
        return;
    };
    if let Ok(outs) = subject.transfer(&arrival.state, instr) {
        note_outs(table, at, &outs, instr.label());
    }
}

/// The first arrivals at the positions of a routine that come from below a place.
pub fn arrivals_to(
    alloc: Global,
    subject: &Subject,
    place: u16,
) -> Result<Vec<Option<Arrival>>, AllocError>
    requires within { place < length subject.now.routine.code }
    requires fine { AreFine subject.now place }
    ensures { IfOk result (λ table. AreKnown subject.now place table.items) }
{
    let mut table = entered(alloc, subject)?;
    for at in 0..place {
        pass_on(subject, &mut table, at);
    }
    Ok(table)
}

/// The arrivals before the first position: the state in which the routine is entered, if it may be.
fn entered(alloc: Global, subject: &Subject) -> Result<Vec<Option<Arrival>>, AllocError>
    requires { 0 < length subject.now.routine.code }
    ensures { IfOk result (λ table. AreKnown subject.now 0 table.items) }
{
    let mut table = vec![in alloc; None; subject.code().len()]?;
    let Some(state) = subject.entry() else {
        return Ok(table);
    };
    note(&mut table, 0, Arrival { from: None, state });
    Ok(table)
}
