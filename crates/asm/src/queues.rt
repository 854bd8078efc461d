//! The queues of a driver put in place of their names, once all of them are known.

ghost use Rattle.std.specs.Prelude.{◌≡◌, ◌≤◌, length, map, IfOk};
ghost use Rattle.model.specs.declared.limits.TheConstants.{MAX_QUEUES, MAX_ROUTINES};
ghost use Rattle.asm.specs.Outline.{finished_queue, missed_queue, queue_at, queue_used, with_queue};

use crate::draft::{Draft, QueueLine};
use crate::names::{earliest, missed_use, number_of};
use crate::roles::Role;
use model::instr::Instr;
use model::set::Queue;
use std::alloc::{AllocError, Global};

/// The instruction with this queue in place of its own, if it touches one.
pub fn with_queue(instr: Instr, queue: u8) -> Instr
    ensures { result ≡ with_queue instr queue }
{
    match instr {
        Instr::Insert(register, _) => Instr::Insert(register, queue),
        Instr::Remove(register, _, label) => Instr::Remove(register, queue, label),
        Instr::Unlink(register, _) => Instr::Unlink(register, queue),
        Instr::Arm(register, _) => Instr::Arm(register, queue),
        other => other,
    }
}

impl<'a> Draft<'a> {
    /// The first line of the open driver that uses a queue which it doesn't have.
    pub fn missed_queue(&self) -> Option<u64>
        ensures { result ≡ missed_queue self.now }
    {
        let mut found = None;
        for used in &self.queue_uses {
            found = earliest(found, missed_use(&self.queue_names, used));
        }
        found
    }

    /// The open driver's queues, with the numbers of their cancel routines.
    pub fn finished_queues(&self, alloc: Global) -> Result<Vec<Queue>, AllocError>
        requires { length self.now.routine_names ≤ MAX_ROUTINES }
        ensures { IfOk result
            (λ queues. queues.items ≡ map (finished_queue self.now) self.now.queues) }
    {
        let mut queues = Vec::new(alloc);
        for queue in &self.queues {
            queues.push(self.finished_queue(queue))?;
        }
        Ok(queues)
    }

    /// A queue with the number of its cancel routine.
    fn finished_queue(&self, queue: &QueueLine<'a>) -> Queue
        requires { length self.now.routine_names ≤ MAX_ROUTINES }
        ensures { result ≡ finished_queue self.now queue.now }
    {
        Queue {
            guard: queue.guard,
            cancel: self.entry_in(Role::Cancel, &queue.cancel),
        }
    }

    /// The number of the queue that the instruction of this place touches: 0 where nothing has the
    /// name, or where it touches none.
    pub fn queue_at(&self, place: Option<usize>) -> u8
        requires { length self.now.queue_names ≤ MAX_QUEUES }
        ensures { result ≡ queue_at self.now place }
    {
        self.queue_used(place).unwrap_or(0)
    }

    /// The number of that queue, if there is one.
    fn queue_used(&self, place: Option<usize>) -> Option<u8>
        requires { length self.now.queue_names ≤ MAX_QUEUES }
        ensures { result ≡ queue_used self.now place }
    {
        let used = self.queue_uses.get(place?)?;
        number_of(&self.queue_names, &used.name)
    }
}
