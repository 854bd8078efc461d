//! The routine that a refusal speaks of.

ghost use Rattle.std.specs.Prelude.{◌≡◌, IfOk, length, option_and_then, option_map, slice_get};
ghost use Rattle.model.specs.declared.limits.TheConstants.{MAX_INSTRUCTIONS};

use absstate::{Abs, Outs, Rule, transfer};
use driver_set::DriverSet;
use model::instr::Instr;
use model::set::Routine;
use std::alloc::{AllocError, Global};
use std::marker::Model;
use verifier::check_routine;

/// A fault of a routine: its position, and the rule that is broken there.
#[derive(Clone, Copy)]
pub struct Fault {
    pub at: u16,
    pub rule: Rule,
}

/// A routine of the driver of a number, of a set, with its own number.
#[derive(Drop)]
pub struct Subject<'a> {
    set: &'a DriverSet,
    driver: u8,
    number: u8,
    routine: &'a Routine,
}

impl<'a> Model for Subject<'a> {
    ghost use Rattle.model.specs.Set.{Member, member};
    ghost use Rattle.model.specs.Sound.{RoutineFits};

    ghost Value = { Member };

    ghost view = { λ s. member s.set.now s.driver s.number s.routine.now };

    ghost invariant = { λ s. RoutineFits s.routine.now };
}

impl<'a> Subject<'a> {
    ghost use Rattle.std.specs.Prelude.{◌≤◌};
    ghost use Rattle.model.specs.LocalRule.{entry_state, local_rule, refuses};
    ghost use Rattle.model.specs.Set.{member};
    ghost use Rattle.verifier_evidence.specs.Fault.{Finds};
    ghost use Rattle.verifier_evidence.specs.Path.{member_of};

    /// The routine of a number, of the driver of a number, if it is there.
    pub fn of(set: &'a DriverSet, driver: u8, number: u8) -> Option<Subject<'a>>
        ensures { result ≡ member_of set.now driver number }
    {
        let driver_there = set.drivers().get(driver as usize)?;
        let routine = driver_there.routines.as_slice().get(number as usize)?;
        Some(Subject {
            set,
            driver,
            number,
            routine,
        })
    }

    /// Its instructions, at most 1,024.
    pub fn code(&self) -> &[Instr]
        ensures code { result.now ≡ self.now.routine.code }
        ensures few { length self.now.routine.code ≤ MAX_INSTRUCTIONS }
    {
        self.routine.code.as_slice()
    }

    /// The state in which it is entered, if it may be.
    pub fn entry(&self) -> Option<Abs>
        ensures { result ≡ entry_state self.now }
    {
        verifier::entry(self.set, self.driver, self.number, self.routine)
    }

    /// What one of its instructions hands on from a state, or the least rule that it breaks.
    pub fn transfer(&self, state: &Abs, instr: &Instr) -> Result<Outs, Rule>
        ensures { result ≡ local_rule state.now instr.now self.now.routine.sort self.now.set
            self.now.driver }
    {
        transfer(state, instr, self.routine.sort, self.set, self.driver)
    }

    /// The first fault of the routine, if it has one.
    ///
    /// # Errors
    ///
    /// When memory runs out.
    pub fn first_fault(&self, alloc: Global) -> Result<Option<Fault>, AllocError>
        ensures { IfOk result (Finds self.now) }
    {
        match check_routine(alloc, self.set, self.driver, self.number, self.routine) {
            Ok(_certificate) => Ok(None),
            Err(refusal) => {
                if refusal.rule == Rule::Memory {
                    return Err(AllocError);
                }
                Ok(Some(Fault {
                    at: refusal.at,
                    rule: refusal.rule,
                }))
            }
        }
    }
}
