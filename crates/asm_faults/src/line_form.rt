//! The words that lines of a driver text begin with, and what has to stand behind each.

use crate::form::Place;
use crate::operand::Operand::{
    self, Cell, Constant, Driver, Field, Label, LowerDevice, Major, NewName, PagedCell, Queue,
    Register, Returned, Routine, Sort, SpinLock, Stack, Status, Turns,
};
use text_faults::forms::{Form, form_among};

/// A word and what stands behind it; of that the last may be left out where it is open.
macro_rules! form {
    ($word:literal, [$($operand:expr),*]) => {
        Form {
            word: $word,
            operands: &[$($operand),*],
            open: false,
        }
    };
    ($word:literal, [$($operand:expr),*], open) => {
        Form {
            word: $word,
            operands: &[$($operand),*],
            open: true,
        }
    };
}

static OUTSIDE: [Form<Operand>; 2] = [
    form!("driver", [NewName]),
    form!("device", [NewName, Driver, Stack, LowerDevice], open),
];

static IN_DRIVER: [Form<Operand>; 6] = [
    form!("dispatch", [Major, Routine]),
    form!("startio", [Routine, Routine], open),
    form!("dpc", [Routine]),
    form!("queue", [NewName, SpinLock, Routine], open),
    form!("routine", [NewName, Sort]),
    form!("endd", []),
];

static IN_ROUTINE: [Form<Operand>; 38] = [
    form!("const", [Register, Constant]),
    form!("mov", [Register, Register]),
    form!("clear", [Register]),
    form!("add", [Register, Register]),
    form!("sub", [Register, Register]),
    form!("jz", [Register, Label]),
    form!("jlt", [Register, Register, Label]),
    form!("jmp", [Label]),
    form!("loop", [Turns]),
    form!("end", []),
    form!("load", [Register, Cell]),
    form!("store", [Cell, Register]),
    form!("loadp", [Register, PagedCell]),
    form!("storep", [PagedCell, Register]),
    form!("get", [Register, Register, Field]),
    form!("put", [Register, Register]),
    form!("mark", [Register]),
    form!("acquire", [SpinLock]),
    form!("release", [SpinLock]),
    form!("acqc", []),
    form!("relc", []),
    form!("insert", [Register, Queue]),
    form!("remove", [Register, Queue, Label]),
    form!("unlink", [Register, Queue]),
    form!("arm", [Register, Queue]),
    form!("disarm", [Register, Label]),
    form!("ifcancel", [Register, Label]),
    form!("start", [Register]),
    form!("take", [Register, Label]),
    form!("begin", [Register]),
    form!("next", []),
    form!("dequeue", [Register]),
    form!("pass", [Register]),
    form!("call", [Register, Routine], open),
    form!("complete", [Register, Status]),
    form!("ifpending", [Register, Label]),
    form!("ret", [Returned]),
    form!("endr", []),
];

impl Place {
    /// The forms of the lines there.
    pub(crate) fn forms(self) -> &'static [Form<Operand>] {
        match self {
            Place::Outside => &OUTSIDE,
            Place::InDriver => &IN_DRIVER,
            Place::InRoutine => &IN_ROUTINE,
        }
    }

    /// The form of the lines there that begin with a word, if there are such.
    pub(crate) fn form_of(self, word: &[u8]) -> Option<&'static Form<Operand>> {
        form_among(self.forms(), word)
    }
}

/// Where the lines that begin with a word stand, if there are such.
pub(crate) fn place_of(word: &[u8]) -> Option<Place> {
    for place in [Place::Outside, Place::InDriver, Place::InRoutine] {
        if place.form_of(word).is_some() {
            return Some(place);
        }
    }
    None
}

/// The form of the lines that begin with a word, if there are such.
pub(crate) fn form_of(word: &[u8]) -> Option<&'static Form<Operand>> {
    place_of(word)?.form_of(word)
}
