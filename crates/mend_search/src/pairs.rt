//! Edits that complete one another, and cost less together.

use driver_set::Instr;
use mend_reading::form::{are_pair, form_of, same_lock};
use mend_reading::{Candidate, Manner};

/// An edit that was made: what kind it is, and the instructions that came and went.
#[derive(Clone, Copy)]
pub(crate) struct Made {
    pub(crate) manner: Manner,
    pub(crate) new: Option<Instr>,
    pub(crate) old: Option<Instr>,
}

/// What an edit costs less behind another one, in hundredths.
pub(crate) fn rebate(before: &Made, next: &Candidate) -> u32 {
    let less = rebate_of_new(before, next);
    if less > 0 {
        return less;
    }
    let returns = next.manner == Manner::Replace && is_return(&next.new);
    match before.manner {
        Manner::Delete if returns && is_completion(&before.old) => 50,
        Manner::Delete if next.manner == Manner::Delete && were_pair(before, next) => 70,
        Manner::Template if returns => 60,
        _ => 0,
    }
}

/// What it costs less for the instructions that came.
fn rebate_of_new(before: &Made, next: &Candidate) -> u32 {
    let Some(one) = &before.new else {
        return 0;
    };
    let Some(other) = &next.new else {
        return 0;
    };
    let inserted = matches!(before.manner, Manner::Insert | Manner::Template);
    match next.manner {
        Manner::Insert if inserted => rebate_of_inserts(one, other),
        Manner::Replace if inserted => {
            let marks = matches!(*one, Instr::Mark(_) | Instr::Complete(..));
            if marks && matches!(*other, Instr::Ret(_)) {
                50
            } else {
                0
            }
        }
        Manner::Replace if before.manner == Manner::Replace && same_lock(one, other) => {
            if were_same_lock(before, next) { 90 } else { 0 }
        }
        Manner::Move if before.manner == Manner::Move => {
            if form_of(one).word == form_of(other).word {
                30
            } else {
                20
            }
        }
        _ => 0,
    }
}

/// What an insertion costs less behind another one.
fn rebate_of_inserts(one: &Instr, other: &Instr) -> u32 {
    if are_pair(one, other) {
        return 70;
    }
    let completes = matches!(*one, Instr::Complete(..)) && matches!(*other, Instr::Ret(_));
    let clears = matches!(*one, Instr::Clear(_)) && matches!(*other, Instr::Clear(_));
    let releases = matches!(*one, Instr::Release(_) | Instr::ReleaseCancel);
    let again = releases && form_of(one) == form_of(other);
    if completes || clears || again { 50 } else { 0 }
}

/// Whether an instruction went that acquired a lock, and goes that released it.
fn were_pair(before: &Made, next: &Candidate) -> bool {
    let Some(lock) = &before.old else {
        return false;
    };
    match &next.old {
        Some(release) => are_pair(lock, release),
        None => false,
    }
}

/// Whether the instructions that went acquired or released one spin lock.
fn were_same_lock(before: &Made, next: &Candidate) -> bool {
    let Some(one) = &before.old else {
        return false;
    };
    match &next.old {
        Some(other) => same_lock(one, other),
        None => false,
    }
}

fn is_return(instr: &Option<Instr>) -> bool {
    match instr {
        Some(instr) => matches!(*instr, Instr::Ret(_)),
        None => false,
    }
}

fn is_completion(instr: &Option<Instr>) -> bool {
    match instr {
        Some(instr) => matches!(*instr, Instr::Complete(..)),
        None => false,
    }
}
