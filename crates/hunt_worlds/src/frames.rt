//! Threads, their frames, and what routines hold.

ghost use Rattle.std.specs.Prelude.{◌≡◌, IsTrue};

use crate::same::{Same, same_all};
use checked::Thread;
use checked_parts::{Frame, Managing};
use model::world::{Activation, CancelStep, Irql, OpenLoop, Value};

impl Same for Value {
    fn same(&self, other: &Value) -> bool {
        match (*self, *other) {
            (Value::Blank, Value::Blank) => true,
            (Value::Num(ours), Value::Num(its)) => ours == its,
            (Value::Ref(ours), Value::Ref(its)) => ours == its,
            (Value::Status(ours), Value::Status(its)) => ours == its,
            _ => false,
        }
    }
}

impl Same for OpenLoop {
    fn same(&self, other: &OpenLoop) -> bool {
        self.start == other.start && self.turns == other.turns
    }
}

impl Same for Activation {
    fn same(&self, other: &Activation) -> bool {
        self.driver == other.driver
            && self.routine == other.routine
            && self.device == other.device
            && self.position == other.position
            && same_all(self.loops.as_slice(), other.loops.as_slice())
            && same_all(self.registers.as_slice(), other.registers.as_slice())
    }
}

/// Whether IoCancelIrp does the same next.
fn same_step(ours: CancelStep, its: CancelStep) -> bool
    ensures { IsTrue result → ours ≡ its }
{
    match (ours, its) {
        (CancelStep::Acquire, CancelStep::Acquire)
        | (CancelStep::SetFlag, CancelStep::SetFlag)
        | (CancelStep::Exchange, CancelStep::Exchange) => true,
        _ => false,
    }
}

/// Whether the I/O manager does the same.
fn same_managing(ours: Managing, its: Managing) -> bool
    ensures { IsTrue result → ours ≡ its }
{
    match (ours, its) {
        (Managing::Completes(ours), Managing::Completes(its)) => ours == its,
        (Managing::Cancels(ours), Managing::Cancels(its)) => {
            ours.packet == its.packet && same_step(ours.next, its.next)
        }
        _ => false,
    }
}

impl Same for Frame {
    #[tactic(auto, using(crate::proofs::Framing::routines_same, crate::proofs::Framing::managers_same))]
    fn same(&self, other: &Frame) -> bool {
        if let Some(ours) = self.activation() {
            return match other.activation() {
                Some(its) => ours.same(its),
                None => false,
            };
        }
        match (self.manager(), other.manager()) {
            (Some(ours), Some(its)) => same_managing(ours, its),
            _ => false,
        }
    }
}

/// Whether two levels are the same.
fn same_level(ours: Irql, its: Irql) -> bool
    ensures { IsTrue result → ours ≡ its }
{
    match (ours, its) {
        (Irql::Passive, Irql::Passive)
        | (Irql::Apc, Irql::Apc)
        | (Irql::Dispatch, Irql::Dispatch) => true,
        _ => false,
    }
}

impl Same for Thread {
    fn same(&self, other: &Thread) -> bool {
        same_level(self.view().root, other.view().root) && same_all(self.frames(), other.frames())
    }
}
