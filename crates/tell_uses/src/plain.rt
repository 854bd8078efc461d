//! Plain steps: those of a routine at an instruction that leaves its frame where it stands and does
//! nothing to uses of stack locations, but may change or wait for what threads share.

ghost use Rattle.std.specs.Prelude.{◌≡◌, IsTrue, Some};
ghost use Rattle.tell_uses.specs.declared.acts.UseStep.TheVariants.{Nothing};
ghost use Rattle.tell_uses.specs.Acts.{use_step};
ghost use Rattle.tell_uses.specs.Plain.{PlainStepsKeepLedgers, PlainStepsStepOrStay, is_plain};
ghost use Rattle.tell_uses.specs.Plain.{is_plain_at, is_plain_on};

use crate::standing::{instruction_at, top_frame};
use checked::Checked;
use checked_parts::Frame;
use driver_set::{DriverSet, Instr};
use model::event::Event;

/// Whether an instruction is such a one.
fn is_plain_at(instr: &Instr) -> bool
    ensures { result ≡ is_plain_at (Some instr.now) }
{
    !matches!(
        instr,
        Instr::Mark(_) | Instr::Pass(_) | Instr::Call(_, _) | Instr::Complete(_, _) | Instr::Ret(_)
    )
}

/// Whether the next step of a frame is a plain one.
fn is_plain_on(set: &DriverSet, frame: &Frame) -> bool
    ensures { result ≡ is_plain_on set.now (Some frame.now) }
{
    let Some(a) = frame.activation() else {
        return false;
    };
    match instruction_at(set, a) {
        Some(instr) => is_plain_at(&instr),
        None => false,
    }
}

/// Whether an event is a plain step: if it is, it does nothing to uses.
pub fn is_plain(machine: &Checked, event: &Event) -> bool
    ensures plain { result ≡ is_plain machine.now.set machine.now.world event.now }
    ensures uses { IsTrue result
        → use_step machine.now.set machine.now.world event.now ≡ Nothing }
{
    let Event::Step { thread } = *event else {
        return false;
    };
    match top_frame(machine, thread) {
        Some(frame) => is_plain_on(machine.set(), frame),
        None => false,
    }
}

/// A ledger that tells a run tells it with a plain step added too that steps. Nothing runs here.
pub fn plain_steps_keep_ledgers()
    ensures { PlainStepsKeepLedgers }
{}

/// A plain step that doesn't step leaves the world as it was. Nothing runs here.
pub fn plain_steps_step_or_stay()
    ensures { PlainStepsStepOrStay }
{}
