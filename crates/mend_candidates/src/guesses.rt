//! Statuses and returns that most likely stand at a place.

use crate::growing::Growing;
use crate::scene::{Scene, registers};
use absstate::{Abs, Kind};
use driver_set::{Instr, Return, Sort};
use mend_reading::acts::leaves;
use model::status::Status;

/// An instruction that may stand at a place, and what it costs more than others.
#[derive(Clone, Copy)]
pub struct Guess {
    pub instr: Instr,
    pub extra: u32,
}

/// Adds a guess.
pub(crate) fn add_guess(list: &mut Growing<Guess>, instr: Instr, extra: u32) {
    list.add(Guess { instr, extra });
}

/// Adds guesses that cost no more than others.
pub(crate) fn add_guesses(list: &mut Growing<Guess>, instrs: &[Instr]) {
    for instr in instrs {
        add_guess(list, *instr, 0);
    }
}

/// Statuses that a return is guessed to have.
const RETURNED: [Status; 3] = [Status::Success, Status::Unsuccessful, Status::Cancelled];

impl<'a> Scene<'a> {
    /// The status with which a packet is most likely completed before a position.
    pub(crate) fn status_at(&self, at: u16) -> Status {
        if matches!(self.subject.sort, Sort::Cancel) {
            return Status::Cancelled;
        }
        let before = self.code.get(..at as usize).unwrap_or_default();
        for (place, instr) in before.iter().enumerate().rev() {
            if matches!(*instr, Instr::Unlink(..) | Instr::Dequeue(_)) {
                return Status::Cancelled;
            }
            if leaves(instr) {
                return self.status_led_to(place, at);
            }
        }
        self.status_behind(at)
    }

    /// The status with which a packet is most likely completed before a position that only jumps
    /// lead to, to behind another one.
    fn status_led_to(&self, place: usize, at: u16) -> Status {
        if self.is_cancelled_at(place) {
            Status::Cancelled
        } else {
            self.status_behind(at)
        }
    }

    /// Whether a packet that is cancelled leads behind a position.
    fn is_cancelled_at(&self, place: usize) -> bool {
        let behind = place.saturating_add(1);
        self.code.iter().any(
            |instr| matches!(*instr, Instr::IfCancel(_, label) if label as usize == behind),
        )
    }

    /// The status that is returned behind a position.
    fn status_behind(&self, at: u16) -> Status {
        for instr in self.code.get(at as usize..).unwrap_or_default() {
            if let Instr::Ret(form) = *instr {
                return status_of(form);
            }
        }
        Status::Success
    }

    /// The status of the completion before a position, on the way there.
    fn completed_before(&self, at: u16) -> Option<Status> {
        let before = self.code.get(..at as usize).unwrap_or_default();
        for instr in before.iter().rev() {
            if let Instr::Complete(_, status) = *instr {
                return Some(status);
            }
            if matches!(*instr, Instr::Ret(_)) {
                return None;
            }
        }
        None
    }

    /// Adds the returns that may stand at a position that is reached in a state.
    pub(crate) fn add_returns(&self, at: u16, state: &Abs, extra: u32, list: &mut Growing<Guess>) {
        match self.subject.sort {
            Sort::Dispatch => self.add_statuses_returned(at, state, extra, list),
            Sort::Propagate => add_guess(list, Instr::Ret(Return::Continue), extra),
            Sort::Hold => {
                add_guess(list, Instr::Ret(Return::Continue), extra);
                add_guess(list, Instr::Ret(Return::Stop), extra);
            }
            Sort::StartIo | Sort::Dpc | Sort::Cancel => {
                add_guess(list, Instr::Ret(Return::Void), extra);
            }
        }
    }

    /// Adds the returns of a dispatch routine.
    fn add_statuses_returned(&self, at: u16, state: &Abs, extra: u32, list: &mut Growing<Guess>) {
        let likely = self.completed_before(at).unwrap_or(Status::Success);
        if likely != Status::Pending {
            add_guess(list, Instr::Ret(Return::WithStatus(likely)), extra);
        }
        for status in RETURNED {
            if status != likely {
                add_guess(
                    list,
                    Instr::Ret(Return::WithStatus(status)),
                    extra.saturating_add(40),
                );
            }
        }
        add_guess(list, Instr::Ret(Return::WithStatus(Status::Pending)), extra);
        self.add_lower_returns(state, extra, list);
    }

    /// Adds the returns of what a lower driver returned.
    fn add_lower_returns(&self, state: &Abs, extra: u32, list: &mut Growing<Guess>) {
        for register in registers() {
            if state.kinds[register.index()] == Kind::Lower {
                add_guess(list, Instr::Ret(Return::Lower(register)), extra);
            }
        }
    }
}

/// The status with which a packet is most likely completed before a return.
fn status_of(form: Return) -> Status {
    match form {
        Return::WithStatus(status) if status != Status::Pending => status,
        Return::WithStatus(_) | Return::Lower(_) | Return::Continue | Return::Stop | Return::Void =>
            Status::Success,
    }
}
