//! One forward pass over a routine. It keeps a table of the states that arrive at each position;
//! since nothing leads back, the table is final at a position when the pass comes there.

ghost use Rattle.std.specs.Prelude.{◌≡◌, ◌≢◌, ◌+◌, ◌<◌, ◌≤◌, length, false, slice_get, IsTrue};
ghost use Rattle.std.specs.Prelude.{IfOk, IfErr, OnOk};
ghost use Rattle.model.specs.declared.limits.TheConstants.{MAX_INSTRUCTIONS};

use crate::certificate::turns_at;
use crate::loops::{Place, survey};
use crate::malformed::is_malformed;
use crate::seen::{Arrivals, arrive, is_only, keep};
use crate::table::Table;
use absstate::{Abs, Rule, Tracked, broken_rule};
use driver_set::DriverSet;
use model::instr::Instr;
use model::limits::MAX_CERTIFICATE;
use model::set::Routine;
use std::alloc::{AllocError, Global};
use std::marker::Model;

/// Where a pass begins: in the state that its routine is entered in, with a table of any other pass.
#[derive(Drop)]
pub struct Start {
    pub entry: Abs,
    pub table: Table,
}

/// A pass over a routine of a driver of a set.
#[derive(Drop)]
pub struct Pass<'a> {
    set: &'a DriverSet,
    driver: u8,
    number: u8,
    routine: &'a Routine,
    /// The loops of the routine, at each position.
    places: Vec<Place>,
    /// The states that jumps lead to a position ahead, and the one at the start of each loop.
    table: Table,
    /// The certificate up to each position that was passed.
    sums: Vec<u32>,
    /// The position that it has come to.
    at: usize,
    /// How many states arrive there.
    arrivals: Arrivals,
    /// The state that does, if it is one.
    state: Tracked,
}

impl<'a> Model for Pass<'a> {
    ghost use Rattle.model.specs.Set.{member};
    ghost use Rattle.verifier.specs.Pass.{Progress, IsRight, progress};
    ghost use Rattle.verifier.specs.Table.{seen_of};

    ghost Value = { Progress };

    ghost view = { λ p. progress (member p.set.now p.driver p.number p.routine.now) p.at };

    ghost invariant = { λ p. IsRight (member p.set.now p.driver p.number p.routine.now)
        p.at p.places.items (seen_of p.arrivals p.state) p.table p.sums.items };
}

impl<'a> Pass<'a> {
    ghost use Rattle.model.specs.Certificate.{certificate};
    ghost use Rattle.model.specs.LocalRule.{entry_state};
    ghost use Rattle.model.specs.Paths.{is_malformed};
    ghost use Rattle.model.specs.Set.{member};
    ghost use Rattle.model.specs.Typable.{IsTypableRoutine, IsFaultAt, IsFirstFaultOf};
    ghost use Rattle.model.specs.Typable.{ClosesAlike, ClosesUnlike};
    ghost use Rattle.verifier.specs.Pass.{IsPassed, progress};

    /// A pass at the start of a routine.
    pub fn begin(
        alloc: Global,
        set: &'a DriverSet,
        driver: u8,
        number: u8,
        routine: &'a Routine,
        start: Start,
    ) -> Result<Pass<'a>, AllocError>
        requires some { length routine.now.code ≢ 0 }
        requires short { length routine.now.code ≤ MAX_INSTRUCTIONS }
        requires entered { entry_state (member set.now driver number routine.now) ≡ Some start.entry }
        ensures { IfOk result
            (λ pass. pass ≡ progress (member set.now driver number routine.now) 0) }
    {
        let code = routine.code.as_slice();
        let Start { entry, mut table } = start;
        let places = survey(alloc, code)?;
        table.open(code.len() + 1)?;
        let sums = vec![in alloc; 0; code.len() + 1]?;
        Ok(Pass {
            set,
            driver,
            number,
            routine,
            places,
            table,
            sums,
            at: 0,
            arrivals: Arrivals::Alone,
            state: Tracked::of(entry),
        })
    }

    /// Takes the state that arrives at its position through the instruction there, and adds to the
    /// certificate.
    pub fn step(&mut self) -> Result<(), Rule>
        requires within { self.old.at < length self.old.member.routine.code }
        ensures passed { OnOk result (self.new ≡ progress self.old.member (self.old.at + 1)) }
        ensures fault { IfErr result (λ rule. IsFirstFaultOf self.old.member self.old.at rule) }
    {
        match self.judge() {
            Ok(()) => {}
            Err(rule) => return Err(rule),
        }
        let code = self.routine.code.as_slice();
        let sum = self.sums[self.at] + turns_at(code, &self.places, &self.sums, self.at);
        if sum as u64 > MAX_CERTIFICATE {
            return Err(Rule::TooLong);
        }
        self.sums[self.at + 1] = sum;
        let instr = &code[self.at];
        keep(&mut self.table, self.at, instr, &self.state);
        let there = self.table.at(self.at + 1);
        self.arrivals = arrive(there, instr, &mut self.state, self.set, self.driver);
        self.at += 1;
        Ok(())
    }

    /// The certificate of the routine that it has gone over.
    pub fn certificate(&self) -> u32
        requires some { length self.now.member.routine.code ≢ 0 }
        requires over { self.now.at ≡ length self.now.member.routine.code }
        ensures typable { IsTypableRoutine self.now.member }
        ensures certificate { result ≡ certificate self.now.member.routine.code }
    {
        self.sums[self.at]
    }

    /// Its table, for the pass over another routine.
    pub fn into_table(self) -> Table {
        let Pass { table, .. } = self;
        table
    }

    /// The least rule that is broken at its position, but for that on length.
    fn judge(&self) -> Result<(), Rule>
        requires within { self.now.at < length self.now.member.routine.code }
        ensures passed { OnOk result (IsPassed self.now.member self.now.at) }
        ensures fault { IfErr result (λ rule. IsFaultAt self.now.member self.now.at rule) }
    {
        let code = self.routine.code.as_slice();
        if is_malformed(code, &self.places, self.at) {
            return Err(Rule::Malformed);
        }
        match self.arrivals {
            Arrivals::Missing => return Err(Rule::Unreachable),
            Arrivals::Differing => return Err(Rule::StatesDiffer),
            Arrivals::Alone => {}
        }
        if !self.closes_alike(&self.state) {
            return Err(Rule::StatesDiffer);
        }
        let sort = self.routine.sort;
        match broken_rule(&self.state, &code[self.at], sort, self.set, self.driver) {
            Some(rule) => Err(rule),
            None => Ok(()),
        }
    }

    /// Whether an `end` at its position is reached in the state in which its `loop` is. Anything
    /// else closes no loop.
    fn closes_alike(&self, state: &Tracked) -> bool
        requires within { self.now.at < length self.now.member.routine.code }
        requires formed { is_malformed self.now.member.routine.code self.now.at ≡ false }
        ensures alike { IsTrue result → ClosesAlike self.now.member self.now.at state.now
            (slice_get self.now.member.routine.code self.now.at) }
        ensures unlike { result ≡ false → ClosesUnlike self.now.member self.now.at state.now
            (slice_get self.now.member.routine.code self.now.at) }
    {
        match self.routine.code.as_slice()[self.at] {
            Instr::End => match self.places[self.at].opened {
                Some(q) => is_only(&self.table, q as usize, state),
                None => false,
            },
            _ => true,
        }
    }
}
