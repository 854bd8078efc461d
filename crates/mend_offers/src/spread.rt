//! Mends that reach into other routines: an edit of a line may bring a fault to one before.

use crate::offers::is_later;
use driver_set::DriverSet;
use mend_changes::{Edit, edited_by};
use mend_search::{Aim, Found, find_mends, has_line};
use std::alloc::{AllocError, Global};
use verifier::{Refusal, Rule, verify};

/// Other routines that are mended too, at most.
const MAX_OTHERS: u8 = 8;

/// The edits of a mend of the routine of a refusal, and behind those of lines the ones that mend
/// the routines before it which have a fault then: as much is tried for each of them.
pub(crate) fn completed(
    alloc: Global,
    set: &DriverSet,
    refusal: &Refusal,
    found: &Found,
    aim: Aim,
) -> Result<Vec<Edit>, AllocError> {
    let mut edits = Vec::from_slice(alloc, found.edits.as_slice())?;
    if has_line(edits.as_slice()) {
        complete(alloc, set, refusal, &mut edits, aim)?;
    }
    Ok(edits)
}

/// Adds to edits the ones that mend the routines before that of a refusal which have a fault then.
fn complete(
    alloc: Global,
    set: &DriverSet,
    refusal: &Refusal,
    edits: &mut Vec<Edit>,
    aim: Aim,
) -> Result<(), AllocError> {
    for _ in 0..MAX_OTHERS {
        let more = next_edits(alloc, set, refusal, edits.as_slice(), aim)?;
        if more.is_empty() {
            break;
        }
        edits.extend_from_slice(more.as_slice())?;
    }
    Ok(())
}

/// The best edits for a routine, before that of a refusal, that has a fault behind other edits.
fn next_edits(
    alloc: Global,
    set: &DriverSet,
    refusal: &Refusal,
    edits: &[Edit],
    aim: Aim,
) -> Result<Vec<Edit>, AllocError> {
    match edited_by(alloc, set, edits)? {
        Some(made) => edits_before(alloc, made, refusal, aim),
        None => Ok(Vec::new(alloc)),
    }
}

/// The best edits for the first routine of a set that has a fault, if it is before that of a
/// refusal.
fn edits_before(
    alloc: Global,
    set: DriverSet,
    refusal: &Refusal,
    aim: Aim,
) -> Result<Vec<Edit>, AllocError> {
    match verify(alloc, set) {
        Ok(_accepted) => Ok(Vec::new(alloc)),
        Err((set, first)) => {
            if first.rule == Rule::Memory {
                Err(AllocError)
            } else if is_later(refusal, &first) {
                best_edits(alloc, &set, &first, aim)
            } else {
                Ok(Vec::new(alloc))
            }
        }
    }
}

/// The best edits for the routine of a refusal, if there are any.
fn best_edits(
    alloc: Global,
    set: &DriverSet,
    refusal: &Refusal,
    aim: Aim,
) -> Result<Vec<Edit>, AllocError> {
    match find_mends(alloc, set, refusal.driver, refusal.routine, aim.of_others())?.first() {
        Some(found) => Vec::from_slice(alloc, found.edits.as_slice()),
        None => Ok(Vec::new(alloc)),
    }
}
