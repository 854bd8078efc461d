//! Whether a driver set is refused.

ghost use Rattle.std.specs.Prelude.{IfOk};
ghost use Rattle.hunt_search.specs.Hunts.{TellsRefused};

use driver_set::DriverSet;
use model::abs::Rule;
use std::alloc::{AllocError, Global};
use verifier::verify;

/// Whether a set is refused.
///
/// # Errors
///
/// When memory runs out.
pub fn is_refused(alloc: Global, set: &DriverSet) -> Result<bool, AllocError>
    ensures { IfOk result (TellsRefused set.now) }
{
    let Ok(copy) = set.copy(alloc) else {
        return Err(AllocError);
    };
    match verify(alloc, copy) {
        Ok(_accepted) => Ok(false),
        Err((_set, refusal)) => {
            if refusal.rule == Rule::Memory {
                Err(AllocError)
            } else {
                Ok(true)
            }
        }
    }
}
