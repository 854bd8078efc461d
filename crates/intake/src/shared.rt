//! The queue that submitters and takers share.

ghost use Rattle.std.specs.Prelude.{◌≡◌, ◌<◌, ◌≤◌, ◌+◌, ◌-◌, ℕ, IfOk, IfSome, OnOk, length};
ghost use Rattle.std.specs.Vec.{vec_capacity};
ghost use Rattle.crossbeam_queue.specs.Passes.{IsPassOf};
ghost use Rattle.model.specs.History.{NamedCommand};
ghost use Rattle.intake.specs.declared.limits.TheConstants.{MAX_CAPACITY, MAX_SUBMITTERS};
ghost use Rattle.intake.specs.declared.limits.TheConstants.{MAX_TAKERS, SHARES};
ghost use Rattle.intake.specs.Ends.{AreInOrder, AreNewSubmitters, AreNewTakers, AreNumbered};
ghost use Rattle.intake.specs.Ends.{AreOtherSubmitters, AreSubmittersOf, AreTakersOf, room_of};
ghost use Rattle.intake.specs.Ends.{submitter_shares, taker_shares, weigh_put, weigh_taken};
ghost use Rattle.intake.specs.Kept.{known, queue_of};
ghost use Rattle.intake.specs.Lists.{AreAmong, weigh};
ghost use Rattle.intake.specs.Rule.{first_after};

use crate::closing::{Closed, Flag};
use crate::left::{Left, with_submitters, with_takers};
use crate::rule::{Cut, Known, Line};
use crate::submitter::Submitter;
use crate::taker::Taker;
use model::memory::OutOfMemory;
use std::alloc::{AllocError, Global};
use std::marker::Model;

/// A bounded queue of commands, which submitters and takers share. Contracts see which queue it is.
#[derive(Drop)]
pub struct Intake {
    pub(crate) line: Line,
    flag: Flag,
}

impl Model for Intake {
    ghost use Rattle.atomic_table.specs.Seated.{TableId};
    ghost use Rattle.intake.specs.Kept.{queue_of};

    ghost Value = { TableId };

    ghost view = { λ s. queue_of s.line };
}

/// The submitters of a queue but for the one of number 0, which has its first pass: all others are
/// cut off that. There is room for one more.
fn other_submitters(
    alloc: Global,
    line: &Line,
    first: &mut Known,
    count: u32,
) -> Result<Vec<Submitter>, AllocError>
    requires count { (1 ≤ count) × (count ≤ MAX_SUBMITTERS) }
    requires first { IsPassOf line.now first.old × (known first.old ≡ first_after 0) }
    ensures pass { IsPassOf line.now first.new }
    ensures first { OnOk result (known first.new ≡ first_after (count - 1)) }
    ensures others { IfOk result (λ made.
        AreOtherSubmitters (queue_of line.now) (count - 1) made.items) }
    ensures room { IfOk result (λ made. count ≤ vec_capacity made) }
{
    let mut submitters = Vec::with_capacity(alloc, count as usize)?;
    for number in 1..count {
        let pass = line.another::<Cut>(first);
        submitters.push_reserved(Submitter::begin(number, pass));
    }
    Ok(submitters)
}

/// The takers of a queue, which are cut off its first pass after so many others.
fn all_takers(
    alloc: Global,
    line: &Line,
    first: &mut Known,
    cut: u32,
    count: u32,
) -> Result<Vec<Taker>, AllocError>
    requires cut { cut < MAX_SUBMITTERS }
    requires count { count ≤ MAX_TAKERS }
    requires first { IsPassOf line.now first.old × (known first.old ≡ first_after cut) }
    ensures pass { IsPassOf line.now first.new }
    ensures first { OnOk result (known first.new ≡ first_after (cut + count)) }
    ensures takers { IfOk result (λ made.
        AreNewTakers (queue_of line.now) count made.items) }
{
    let mut takers = Vec::with_capacity(alloc, count as usize)?;
    for _number in 0..count {
        takers.push_reserved(Taker::begin(line.another::<Cut>(first)));
    }
    Ok(takers)
}

impl Intake {
    /// A queue with room for so many commands, 1 to `MAX_CAPACITY`, with so many submitters, 1 to
    /// `MAX_SUBMITTERS`, and takers, 1 to `MAX_TAKERS`. The submitters have the numbers from 0 on,
    /// in order. An error where memory is refused; no other call needs any.
    pub fn new(
        alloc: Global,
        capacity: usize,
        submitters: u32,
        takers: u32,
    ) -> Result<(Intake, Vec<Submitter>, Vec<Taker>), OutOfMemory>
        requires capacity { (1 ≤ capacity) × (capacity ≤ MAX_CAPACITY) }
        requires submitters { (1 ≤ submitters) × (submitters ≤ MAX_SUBMITTERS) }
        requires takers { (1 ≤ takers) × (takers ≤ MAX_TAKERS) }
        ensures room { IfOk result (λ made. room_of made.0 ≡ capacity) }
        ensures submitters { IfOk result (λ made. AreNewSubmitters made.0 submitters made.1.items) }
        ensures takers { IfOk result (λ made. AreNewTakers made.0 takers made.2.items) }
        ensures shares { IfOk result (λ made. submitter_shares made.1.items
            + taker_shares made.2.items ≡ SHARES) }
    {
        let (line, mut first) = Line::ruled(alloc, capacity)?;
        let mut submitting = other_submitters(alloc, &line, &mut first, submitters)?;
        let taking = all_takers(alloc, &line, &mut first, submitters - 1, takers)?;
        if submitting.insert(0, Submitter::begin(0, first)).is_err() {
            return Err(OutOfMemory);
        }
        let intake = Intake {
            line,
            flag: Flag::open(),
        };
        Ok((intake, submitting, taking))
    }

    /// Closes the queue: from now on a submitter gets its command back. One that is at it may still
    /// put. Takers go on.
    pub fn close(&self) -> Closed
        ensures { result ≡ self.now }
    {
        self.flag.close(&self.line)
    }

    /// Whether it was closed.
    pub fn closed(&self) -> bool {
        self.closing().is_some()
    }

    /// What shows that it was closed, if it was.
    pub fn closing(&self) -> Option<Closed>
        ensures { IfSome result (λ closed. closed ≡ self.now) }
    {
        self.flag.closing(&self.line)
    }

    /// The queue once all its submitters and takers have left it, in any order: with their shares,
    /// all shares are together. What they put was taken or is in the queue still. The share of one
    /// that was dropped is lost, and its queue can't be left.
    pub fn left(self, mut submitters: Vec<Submitter>, takers: Vec<Taker>) -> Left
        requires some { 0 < length submitters.items }
        requires submitters { AreSubmittersOf self submitters.items }
        requires takers { AreTakersOf self takers.items }
        requires shares { submitter_shares submitters.items
            + taker_shares takers.items ≡ SHARES }
        ensures put { (h : NamedCommand → ℕ) → weigh h result.put
            ≡ weigh_put h submitters.items }
        ensures taken { (h : NamedCommand → ℕ) → weigh h result.taken
            ≡ weigh_taken h takers.items }
        ensures names { AreNumbered submitters.items }
        ensures order { AreInOrder takers.items }
        ensures among { AreAmong result.taken result.put }
    {
        let Some(first) = submitters.pop() else {
            unreachable!()
        };
        let Intake { line, flag: _ } = self;
        let pass = with_submitters(&line, first.into_pass(), submitters);
        let pass = with_takers(&line, pass, takers);
        Left::of(line, pass)
    }
}
