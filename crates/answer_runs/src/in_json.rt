//! The trace of a run as lines of JSON.

use crate::lined::follow;
use crate::reply_lines::ReplyLines;
use crate::run_form::RunForm;
use crate::running::Machine;
use answer::as_json::{Json, told_fault};
use drvhost_devices::device::Sink;
use drvhost_devices::fault::{End, Fault};
use drvhost_devices::told::Told;
use interleave::schedule::{Schedule, ScheduleFault};
use model::event::Reply;
use report_json::event::Event;
use report_json::fault::InputFault;
use report_json::json_lines::JsonLines;
use std::alloc::{AllocError, Global};

/// Bytes of lines that gather before they are written.
const ROOM: usize = 65_536;

/// The lines of a run's events in JSON.
#[derive(Drop)]
pub(crate) struct EventLines {
    /// The number of the event that comes next.
    pub(crate) number: u64,
    pub(crate) lines: JsonLines,
}

impl ReplyLines for EventLines {
    ghost use Rattle.std.specs.Prelude.{⊤};
    ghost use Rattle.answer_runs.specs.InJson.{event_line};

    ghost line = { event_line };

    ghost lacks = { ⊤ };

    ghost number = { λ page. page.number };

    ghost gathered = { λ page. page.lines };

    ghost has_room = { λ _. ⊤ };

    fn is_full(&self) -> bool {
        self.lines.bytes().len() >= ROOM
    }

    fn bytes(&self) -> &[u8] {
        self.lines.bytes()
    }

    fn clear(&mut self) {
        self.lines.clear();
    }

    fn put(&mut self, reply: &Reply, _count: u64) -> Result<u64, AllocError> {
        self.lines.add(&Event {
            number: self.number,
            reply: *reply,
        })?;
        self.number += 1;
        Ok(1)
    }
}

impl RunForm for Json {
    ghost use Rattle.std.specs.Prelude.{◌≡◌};
    ghost use Rattle.report_json.specs.declared.fault.InputFault.TheVariants.{Schedule};
    ghost use Rattle.answer.specs.Told.{fault_answer};
    ghost use Rattle.answer_runs.specs.InJson.{IsRunInJson};

    ghost is_run = { λ _. IsRunInJson };

    ghost is_schedule_fault = { λ _ name fault answer. answer ≡ fault_answer name (Schedule fault) };

    fn schedule_fault(
        &self,
        alloc: Global,
        name: &str,
        fault: ScheduleFault,
    ) -> Result<Told, AllocError> {
        told_fault(alloc, name, InputFault::Schedule(fault))
    }

    fn follow<M: Machine, O: Sink>(
        &self,
        alloc: Global,
        machine: &mut M,
        schedule: &Schedule,
        out: &mut O,
    ) -> Result<End, Fault> {
        let mut page = EventLines {
            number: 0,
            lines: JsonLines::new(alloc),
        };
        follow(&mut page, machine, schedule, out)
    }
}
