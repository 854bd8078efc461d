//! The routines of a driver put in place of their names, once all of them are known.

ghost use Rattle.std.specs.Prelude.{◌≡◌, ◌≤◌, ◌++◌, length, map, IfOk, None};
ghost use Rattle.model.specs.declared.limits.TheConstants.{MAX_QUEUES, MAX_ROUTINES};
ghost use Rattle.asm.specs.Outline.{called, entry_in, finished, missed_calls, missed_cancels};
ghost use Rattle.asm.specs.Outline.{missed_entry, missed_handler, missed_in_driver, missed_routine};
ghost use Rattle.asm.specs.Outline.{missed_server, missed_startio, missed_use, finished_driver};
ghost use Rattle.asm.specs.Outline.{routine_called, routine_named, startio_named, waiting_named};
ghost use Rattle.asm.specs.Outline.{with_routine};

use crate::code::{ClosedCode, is_nameless};
use crate::draft::{ClosedRoutine, Draft, Linked};
use crate::names::{Use, earliest};
use crate::queues::with_queue;
use crate::roles::{Role, routine_named};
use indexmap::IndexSet;
use model::instr::Instr;
use model::items::Items;
use model::set::{Driver, Routine, Sort};
use std::alloc::{AllocError, Global};
use text::piece::Piece;

/// The instruction with this routine in place of its own, if it is a `call`.
fn with_routine(instr: Instr, routine: Option<u8>) -> Instr
    ensures { result ≡ with_routine instr routine }
{
    match instr {
        Instr::Call(register, _) => Instr::Call(register, routine),
        other => other,
    }
}

impl<'a> Draft<'a> {
    /// The first line of the open driver that uses a queue or routine which it doesn't have, or a
    /// routine of a sort that isn't for its role.
    pub fn missed_in_driver(&self) -> Option<u64>
        requires { length self.now.routine_names ≤ MAX_ROUTINES }
        ensures { result ≡ missed_in_driver self.now }
    {
        earliest(self.missed_queue(), self.missed_routine())
    }

    /// The first line of the open driver that uses a routine which it doesn't have, or one of a
    /// sort that isn't for its role.
    fn missed_routine(&self) -> Option<u64>
        requires { length self.now.routine_names ≤ MAX_ROUTINES }
        ensures { result ≡ missed_routine self.now }
    {
        earliest(self.missed_calls(), self.missed_server())
    }

    /// The first line of a queue or table entry that names such a routine.
    fn missed_server(&self) -> Option<u64>
        requires { length self.now.routine_names ≤ MAX_ROUTINES }
        ensures { result ≡ missed_server self.now.routine_names self.now.sorts self.now }
    {
        earliest(self.missed_cancels(), self.missed_handler())
    }

    /// The first line of a queue whose cancel routine is such a one.
    fn missed_cancels(&self) -> Option<u64>
        requires { length self.now.routine_names ≤ MAX_ROUTINES }
        ensures { result
            ≡ missed_cancels self.now.routine_names self.now.sorts None self.now.queues }
    {
        let mut found = None;
        for queue in &self.queues {
            found = earliest(found, self.missed_entry(Role::Cancel, &queue.cancel));
        }
        found
    }

    /// The first line that names such a routine for a major function, as its StartIo or as its DPC
    /// routine.
    fn missed_handler(&self) -> Option<u64>
        requires { length self.now.routine_names ≤ MAX_ROUTINES }
        ensures { result ≡ missed_handler self.now.routine_names self.now.sorts self.now }
    {
        let read = self.missed_entry(Role::Handler, &self.read);
        let write = self.missed_entry(Role::Handler, &self.write);
        let control = self.missed_entry(Role::Handler, &self.control);
        let startio = self.missed_startio();
        let dpc = self.missed_entry(Role::Dpc, &self.dpc);
        earliest(
            read,
            earliest(write, earliest(control, earliest(startio, dpc))),
        )
    }

    /// The `startio` line, if it names such a routine as one of its two.
    fn missed_startio(&self) -> Option<u64>
        requires { length self.now.routine_names ≤ MAX_ROUTINES }
        ensures { result
            ≡ missed_startio self.now.routine_names self.now.sorts self.now.startio }
    {
        match &self.startio {
            Some(line) => {
                let routine = self.missed_use(Role::StartIo, &line.routine);
                earliest(routine, self.missed_entry(Role::Cancel, &line.cancel))
            }
            None => None,
        }
    }

    /// The line of a table entry, or of a queue, that names such a routine.
    fn missed_entry(&self, role: Role, entry: &Option<Use<'a>>) -> Option<u64>
        requires { length self.now.routine_names ≤ MAX_ROUTINES }
        ensures { result ≡ missed_entry self.now.routine_names self.now.sorts role entry.now }
    {
        match entry {
            Some(used) => self.missed_use(role, used),
            None => None,
        }
    }

    /// The line of this use of a name, if it names such a routine.
    fn missed_use(&self, role: Role, used: &Use<'a>) -> Option<u64>
        requires { length self.now.routine_names ≤ MAX_ROUTINES }
        ensures { result ≡ missed_use self.now.routine_names self.now.sorts role used.now }
    {
        if self.routine_named(role, &used.name).is_some() {
            None
        } else {
            Some(used.line)
        }
    }

    /// The first call that names such a routine.
    fn missed_calls(&self) -> Option<u64>
        requires { length self.now.routine_names ≤ MAX_ROUTINES }
        ensures { result ≡ missed_calls self.now.routine_names self.now.sorts None self.now.calls }
    {
        let mut found = None;
        for used in &self.calls {
            found = earliest(found, self.missed_use(Role::Completion, used));
        }
        found
    }

    /// The open driver, whose routines are all closed and are given.
    pub fn finished_driver(
        &self,
        alloc: Global,
        routines: Vec<ClosedRoutine>,
    ) -> Result<Driver, AllocError>
        requires routines { length self.now.routine_names ≤ MAX_ROUTINES }
        requires queues { length self.now.queue_names ≤ MAX_QUEUES }
        ensures { IfOk result (λ driver. driver
            ≡ finished_driver (record self.now { routines = routines.items })) }
    {
        Ok(Driver {
            routines: Items::of(self.finished_routines(alloc, routines)?),
            queues: Items::of(self.finished_queues(alloc)?),
            read: self.entry_in(Role::Handler, &self.read),
            write: self.entry_in(Role::Handler, &self.write),
            control: self.entry_in(Role::Handler, &self.control),
            startio: self.startio_in(),
            startio_cancel: self.startio_cancel_in(),
            dpc: self.entry_in(Role::Dpc, &self.dpc),
        })
    }

    /// The number of the StartIo routine.
    fn startio_in(&self) -> Option<u8>
        requires { length self.now.routine_names ≤ MAX_ROUTINES }
        ensures { result ≡ entry_in self.now.routine_names self.now.sorts Role.StartIo
            (startio_named self.now.startio) }
    {
        match &self.startio {
            Some(line) => self.routine_named(Role::StartIo, &line.routine.name),
            None => None,
        }
    }

    /// The number of the cancel routine of the packets that wait in the device queue.
    fn startio_cancel_in(&self) -> Option<u8>
        requires { length self.now.routine_names ≤ MAX_ROUTINES }
        ensures { result ≡ entry_in self.now.routine_names self.now.sorts Role.Cancel
            (waiting_named self.now.startio) }
    {
        match &self.startio {
            Some(line) => self.entry_in(Role::Cancel, &line.cancel),
            None => None,
        }
    }

    /// The number of the routine that is named for a role.
    pub fn entry_in(&self, role: Role, entry: &Option<Use<'a>>) -> Option<u8>
        requires { length self.now.routine_names ≤ MAX_ROUTINES }
        ensures { result ≡ entry_in self.now.routine_names self.now.sorts role entry.now }
    {
        match entry {
            Some(used) => self.routine_named(role, &used.name),
            None => None,
        }
    }

    /// The number of the open driver's routine with this name, if its sort is for the role.
    fn routine_named(&self, role: Role, name: &Piece<'a>) -> Option<u8>
        requires { length self.now.routine_names ≤ MAX_ROUTINES }
        ensures { result ≡ routine_named self.now.routine_names self.now.sorts role name.now }
    {
        routine_named(&self.routine_names, &self.sorts, role, name)
    }

    /// Closed routines of the open driver, whose instructions have the numbers of what they name.
    fn finished_routines(
        &self,
        alloc: Global,
        closed: Vec<ClosedRoutine>,
    ) -> Result<Vec<Routine>, AllocError>
        requires routines { length self.now.routine_names ≤ MAX_ROUTINES }
        requires queues { length self.now.queue_names ≤ MAX_QUEUES }
        ensures { IfOk result (λ routines. routines.items ≡ map (finished self.now) closed.items) }
    {
        let mut routines = Vec::with_capacity(alloc, closed.len())?;
        for routine in closed {
            routines.push(self.finished(routine)?)?;
        }
        Ok(routines)
    }

    /// A routine whose instructions have the numbers of what they name.
    fn finished(&self, routine: ClosedRoutine) -> Result<Routine, AllocError>
        requires routines { length self.now.routine_names ≤ MAX_ROUTINES }
        requires queues { length self.now.queue_names ≤ MAX_QUEUES }
        ensures { IfOk result (λ whole. whole ≡ finished self.now routine) }
    {
        Ok(Routine {
            sort: routine.sort,
            code: Items::of(self.code_of(routine.code)?),
        })
    }

    /// Instructions that have the numbers of what they name.
    #[tactic(auto, using(crate::proofs::Bare::nameless_called))]
    fn code_of(&self, code: ClosedCode) -> Result<Vec<Instr>, AllocError>
        requires routines { length self.now.routine_names ≤ MAX_ROUTINES }
        requires queues { length self.now.queue_names ≤ MAX_QUEUES }
        ensures { IfOk result (λ whole. whole.items ≡ map (called self.now) code) }
    {
        let ClosedCode { done, rest } = code;
        self.with_called(done, &rest)
    }

    /// These instructions, and behind them others that have the numbers of what they name.
    fn with_called(&self, before: Vec<Instr>, steps: &[Linked]) -> Result<Vec<Instr>, AllocError>
        requires routines { length self.now.routine_names ≤ MAX_ROUTINES }
        requires queues { length self.now.queue_names ≤ MAX_QUEUES }
        ensures { IfOk result
            (λ code. code.items ≡ before.items ++ map (called self.now) steps.now) }
    {
        let mut code = before;
        for step in steps {
            code.push(self.called(step))?;
        }
        Ok(code)
    }

    /// An instruction that has the numbers of what it names. Most name no queue or routine, and are
    /// copied whole.
    #[tactic(auto, using(crate::proofs::Bare::names_stay))]
    fn called(&self, step: &Linked) -> Instr
        requires routines { length self.now.routine_names ≤ MAX_ROUTINES }
        requires queues { length self.now.queue_names ≤ MAX_QUEUES }
        ensures { result ≡ called self.now step.now }
    {
        if is_nameless(&step.instr) {
            return step.instr;
        }
        let instr = with_routine(step.instr, self.routine_called(step.call));
        with_queue(instr, self.queue_at(step.queue))
    }

    /// The number of the routine that the call of this place sets.
    fn routine_called(&self, call: Option<usize>) -> Option<u8>
        requires { length self.now.routine_names ≤ MAX_ROUTINES }
        ensures { result ≡ routine_called self.now call }
    {
        let used = self.calls.get(call?)?;
        self.routine_named(Role::Completion, &used.name)
    }
}
