//! The state that arrives at a position of a routine, the default routine's too.

ghost use Rattle.std.specs.Prelude.{◌≡◌, IfOk, option_and_then};
ghost use Rattle.model.specs.Set.{default_number, default_routine, member};
ghost use Rattle.model.specs.LocalRule.{entry_state};
ghost use Rattle.model.specs.Typable.{IsTypable};
ghost use Rattle.tell_holders.specs.Right.{IsStateAt};

use absstate::{Abs, entry_state, transfer};
use driver_set::{DriverSet, Instr, Register, Sort};
use model::limits::DEFAULT_ROUTINE;
use model::status::Status;
use std::alloc::{AllocError, Global};
use verifier_evidence::{Subject, path_to};

/// The state that arrives at a position of a routine of an accepted set, if there is the position.
///
/// # Errors
///
/// When memory runs out.
pub(crate) fn state_at(
    alloc: Global,
    set: &DriverSet,
    driver: u8,
    routine: u8,
    position: u16,
) -> Result<Option<Abs>, AllocError>
    requires { IsTypable set.now }
    ensures { IfOk result (IsStateAt set.now driver routine position) }
{
    if routine == DEFAULT_ROUTINE {
        return Ok(default_state(set, driver, position));
    }
    let Some(subject) = Subject::of(set, driver, routine) else {
        return Ok(None);
    };
    if position as usize >= subject.code().len() {
        return Ok(None);
    }
    match path_to(alloc, subject, position)? {
        Some(path) => Ok(Some(path.last.state)),
        None => Ok(None),
    }
}

/// The state that arrives at a position of the default routine: its packet is new at first, and
/// then completed.
fn default_state(set: &DriverSet, driver: u8, position: u16) -> Option<Abs>
    ensures { IsStateAt set.now driver default_number position result }
{
    let entry = entry_state(Sort::Dispatch, None)?;
    match position {
        0 => Some(entry),
        1 => {
            let first = Instr::Complete(Register::FIRST, Status::InvalidDeviceRequest);
            match transfer(&entry, &first, Sort::Dispatch, set, driver) {
                Ok(outs) => outs.next,
                Err(_) => None,
            }
        }
        _ => None,
    }
}
