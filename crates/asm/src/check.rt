//! A line in its context: what is wrong with it.

ghost use Rattle.std.specs.Prelude.{◌≡◌};
ghost use Rattle.asm.specs.Outline.{handler_of, draft_has_room, draft_is_again, is_out_of_range};
ghost use Rattle.asm.specs.Outline.{is_stack_size, draft_misfit, stands};

use crate::draft::{Draft, Place};
use crate::fault::AsmKind;
use crate::names::{Use, is_among, is_known};
use asm_line::{Body, Line};
use model::limits::{
    MAX_DEVICES, MAX_DRIVERS, MAX_INSTRUCTIONS, MAX_QUEUES, MAX_ROUTINES, MAX_STACK,
};
use model::status::Major;

impl<'a> Draft<'a> {
    /// The least kind of fault that the line has where it stands.
    pub fn misfit(&self, line: &Line<'a>) -> Option<AsmKind>
        ensures { result ≡ draft_misfit self.now line.now }
    {
        if !stands(self.place, &line.body) {
            return Some(AsmKind::UnknownWord);
        }
        if self.is_again(line) {
            return Some(AsmKind::DuplicateName);
        }
        if is_out_of_range(&line.body) {
            return Some(AsmKind::OutOfRange);
        }
        if !self.has_room(&line.body) {
            return Some(AsmKind::OverLimit);
        }
        None
    }

    /// Whether the line gives a name, a table entry or a label again.
    fn is_again(&self, line: &Line<'a>) -> bool
        ensures { result ≡ draft_is_again self.now line.now.label line.now.body }
    {
        match &line.body {
            Body::OpenDriver(name) => is_among(&self.driver_names, name),
            Body::AddQueue(name, _, _) => is_among(&self.queue_names, name),
            Body::Handle(major, _) => self.handler_of(*major).is_some(),
            Body::HandleStartIo(_, _) => self.startio.is_some(),
            Body::HandleDpc(_) => self.dpc.is_some(),
            Body::OpenRoutine(name, _) => is_among(&self.routine_names, name),
            Body::AddDevice(name, _, _, _) => is_among(&self.device_names, name),
            Body::Step(_, _) => is_known(&self.labels, &line.label),
            Body::Blank | Body::CloseDriver | Body::CloseRoutine => false,
        }
    }

    /// The routine that serves a major function in the open driver, as its line names it.
    fn handler_of(&self, major: Major) -> &Option<Use<'a>>
        ensures { result.now ≡ handler_of self.now major }
    {
        match major {
            Major::Read => &self.read,
            Major::Write => &self.write,
            Major::Control => &self.control,
        }
    }

    /// Whether there is room for what the line adds.
    fn has_room(&self, body: &Body<'a>) -> bool
        ensures { result ≡ draft_has_room self.now body.now }
    {
        match body {
            Body::OpenDriver(_) => self.driver_names.len() < MAX_DRIVERS,
            Body::AddDevice(_, _, _, _) => self.device_names.len() < MAX_DEVICES,
            Body::AddQueue(_, _, _) => self.queue_names.len() < MAX_QUEUES,
            Body::OpenRoutine(_, _) => self.routine_names.len() < MAX_ROUTINES,
            Body::Step(_, _) => self.steps.len() < MAX_INSTRUCTIONS,
            _ => true,
        }
    }
}

/// Whether the line may stand in this place.
fn stands(place: Place, body: &Body<'_>) -> bool
    ensures { result ≡ stands place body.now }
{
    match body {
        Body::Blank => true,
        Body::OpenDriver(_) | Body::AddDevice(_, _, _, _) => matches!(place, Place::Outside),
        Body::CloseDriver
        | Body::AddQueue(_, _, _)
        | Body::Handle(_, _)
        | Body::HandleStartIo(_, _)
        | Body::HandleDpc(_)
        | Body::OpenRoutine(_, _) => matches!(place, Place::InDriver),
        Body::CloseRoutine | Body::Step(_, _) => matches!(place, Place::InRoutine),
    }
}

/// Whether an operand of the line is out of range.
fn is_out_of_range(body: &Body<'_>) -> bool
    ensures { result ≡ is_out_of_range body.now }
{
    match body {
        Body::AddDevice(_, _, stack, _) => !is_stack_size(*stack),
        Body::AddQueue(_, guard, _) => guard.is_none(),
        Body::Step(instr, _) => instr.is_none(),
        _ => false,
    }
}

/// Whether a device may have this stack size.
fn is_stack_size(stack: u64) -> bool
    ensures { result ≡ is_stack_size stack }
{
    1 <= stack && stack <= MAX_STACK as u64
}
