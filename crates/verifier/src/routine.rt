//! The verdict on one routine.

ghost use Rattle.std.specs.Prelude.{◌≡◌, ◌≢◌, ◌<◌, ◌≤◌, None, length, if◌then◌else◌, IfOk, IfErr};
ghost use Rattle.std.specs.Prelude.{OnOk};
ghost use Rattle.model.specs.Certificate.{certificate};
ghost use Rattle.model.specs.LocalRule.{entry_state};
ghost use Rattle.model.specs.declared.limits.TheConstants.{MAX_INSTRUCTIONS};
ghost use Rattle.model.specs.Paths.{is_malformed};
ghost use Rattle.model.specs.Set.{member};
ghost use Rattle.model.specs.Sound.{RoutineFits};
ghost use Rattle.model.specs.Typable.{IsTypableRoutine, at_start};
ghost use Rattle.verifier.specs.Verdict.{IsRefusalOfRoutine};

use crate::loops::survey;
use crate::malformed::is_malformed;
use crate::named::cancels_for;
use crate::pass::{Pass, Start};
use crate::table::Table;
use absstate::{Abs, Rule, entry_state};
use driver_set::DriverSet;
use model::abs::Refusal;
use model::instr::Instr;
use model::set::Routine;
use std::alloc::{AllocError, Global};

/// Accepts a routine of a driver of a set, both by number, exactly if it is typable, memory apart,
/// and answers its certificate; else its first fault.
pub fn check_routine(
    alloc: Global,
    set: &DriverSet,
    driver: u8,
    number: u8,
    routine: &Routine,
) -> Result<u32, Refusal>
    requires { RoutineFits routine.now }
    ensures typable { OnOk result
        (IsTypableRoutine (member set.now driver number routine.now)) }
    ensures certificate { IfOk result (λ sum. sum ≡ certificate routine.now.code) }
    ensures refused { IfErr result
        (IsRefusalOfRoutine (member set.now driver number routine.now)) }
{
    match check_over(alloc, set, driver, number, routine, Table::new(alloc)) {
        Ok(checked) => Ok(checked.certificate),
        Err(refusal) => Err(refusal),
    }
}

/// The certificate of a routine that was accepted, and the table of the pass over it.
#[derive(Drop)]
pub struct Checked {
    pub certificate: u32,
    pub table: Table,
}

/// Accepts a routine like [`check_routine`], with the table of a pass over any other.
pub(crate) fn check_over(
    alloc: Global,
    set: &DriverSet,
    driver: u8,
    number: u8,
    routine: &Routine,
    table: Table,
) -> Result<Checked, Refusal>
    requires { RoutineFits routine.now }
    ensures typable { OnOk result
        (IsTypableRoutine (member set.now driver number routine.now)) }
    ensures certificate { IfOk result
        (λ checked. checked.certificate ≡ certificate routine.now.code) }
    ensures refused { IfErr result
        (IsRefusalOfRoutine (member set.now driver number routine.now)) }
{
    let code = routine.code.as_slice();
    if code.is_empty() {
        return Err(refusal(driver, number, 0, Rule::Malformed));
    }
    let Some(entry) = entry(set, driver, number, routine) else {
        return Err(refusal_at_entry(alloc, set, driver, number, routine));
    };
    let start = Start { entry, table };
    let Ok(mut pass) = Pass::begin(alloc, set, driver, number, routine, start) else {
        return Err(at_start(Rule::Memory));
    };
    for at in 0..code.len() {
        if let Err(rule) = pass.step() {
            return Err(refusal(driver, number, at as u16, rule));
        }
    }
    Ok(Checked {
        certificate: pass.certificate(),
        table: pass.into_table(),
    })
}

/// The refusal of a routine that can't be entered.
fn refusal_at_entry(
    alloc: Global,
    set: &DriverSet,
    driver: u8,
    number: u8,
    routine: &Routine,
) -> Refusal
    requires some { length routine.now.code ≢ 0 }
    requires fits { RoutineFits routine.now }
    requires barred { entry_state (member set.now driver number routine.now) ≡ None }
    ensures { IsRefusalOfRoutine (member set.now driver number routine.now) result }
{
    match rule_at_entry(alloc, routine.code.as_slice()) {
        Ok(rule) => refusal(driver, number, 0, rule),
        Err(_) => at_start(Rule::Memory),
    }
}

/// The state in which a routine of a driver of a set, both by number, is entered, if it may be.
pub fn entry(set: &DriverSet, driver: u8, number: u8, routine: &Routine) -> Option<Abs>
    ensures { result ≡ entry_state (member set.now driver number routine.now) }
{
    entry_state(routine.sort, cancels_for(set, driver, number))
}

/// The least rule that is broken at the start of a routine that can't be entered.
fn rule_at_entry(alloc: Global, code: &[Instr]) -> Result<Rule, AllocError>
    requires some { 0 < length code.now }
    requires short { length code.now ≤ MAX_INSTRUCTIONS }
    ensures { IfOk result
        (λ rule. rule ≡ (if is_malformed code.now 0 then Rule.Malformed else Rule.Sort)) }
{
    let places = survey(alloc, code)?;
    if is_malformed(code, &places, 0) {
        Ok(Rule::Malformed)
    } else {
        Ok(Rule::Sort)
    }
}

fn refusal(driver: u8, routine: u8, at: u16, rule: Rule) -> Refusal
    ensures { result ≡ record { driver = driver; routine = routine; at = at; rule = rule } }
{
    Refusal {
        driver,
        routine,
        at,
        rule,
    }
}

/// The refusal of a set for what isn't about one of its routines.
pub fn at_start(rule: Rule) -> Refusal
    ensures { result ≡ at_start rule }
{
    refusal(0, 0, 0, rule)
}
