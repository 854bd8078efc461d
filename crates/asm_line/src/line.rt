//! A line of a driver text, by its form.

ghost use Rattle.std.specs.Prelude.{◌≡◌};

use model::instr::{Instr, SpinLock};
use model::set::Sort;
use model::status::Major;
use text::piece::Piece;

/// The names that an instruction uses. In the instruction itself a label or a queue is 0 and a
/// routine none until they are known.
#[derive(Drop)]
pub struct UsedNames<'a> {
    /// Of the label that it jumps to.
    pub label: Option<Piece<'a>>,
    /// Of the routine that a `call` sets.
    pub routine: Option<Piece<'a>>,
    /// Of the queue that it touches.
    pub queue: Option<Piece<'a>>,
}

impl<'a> UsedNames<'a> {
    /// The same names once more.
    pub fn again(&self) -> UsedNames<'a>
        ensures { result ≡ self.now }
    {
        UsedNames {
            label: again(&self.label),
            routine: again(&self.routine),
            queue: again(&self.queue),
        }
    }
}

/// The same name once more, if there is one.
fn again<'a>(name: &Option<Piece<'a>>) -> Option<Piece<'a>>
    ensures { result ≡ name.now }
{
    match name {
        Some(name) => Some(name.again()),
        None => None,
    }
}

/// What a line says.
#[derive(Drop)]
pub enum Body<'a> {
    /// Nothing.
    Blank,
    /// `driver NAME`.
    OpenDriver(Piece<'a>),
    /// `endd`.
    CloseDriver,
    /// `queue NAME LOCK` and `queue NAME LOCK ROUTINE`: its name, the spin lock that guards it, if
    /// that is in range, and the name of the cancel routine of the packets in it.
    AddQueue(Piece<'a>, Option<SpinLock>, Option<Piece<'a>>),
    /// `dispatch MAJOR ROUTINE`.
    Handle(Major, Piece<'a>),
    /// `startio ROUTINE` and `startio ROUTINE CANCEL`: its name, and the name of the cancel routine
    /// of the packets that wait in the device queue.
    HandleStartIo(Piece<'a>, Option<Piece<'a>>),
    /// `dpc ROUTINE`.
    HandleDpc(Piece<'a>),
    /// `routine NAME SORT`.
    OpenRoutine(Piece<'a>, Sort),
    /// `endr`.
    CloseRoutine,
    /// `device NAME DRIVER STACK` and `device NAME DRIVER STACK LOWER`: its name, its driver's
    /// name, its stack size, and the name of the device under it.
    AddDevice(Piece<'a>, Piece<'a>, u64, Option<Piece<'a>>),
    /// An instruction, if all its operands are in range, and the names that it uses.
    Step(Option<Instr>, UsedNames<'a>),
}

/// A line: what it says, and its label if it has one.
#[derive(Drop)]
pub struct Line<'a> {
    pub label: Option<Piece<'a>>,
    pub body: Body<'a>,
}

/// Why the bytes are no line.
#[derive(Clone, Copy)]
pub enum LineFault {
    /// A byte that no text has, or a token of no form.
    Lex,
    /// A line of no form: an unknown first word, or wrong operands.
    UnknownWord,
}
