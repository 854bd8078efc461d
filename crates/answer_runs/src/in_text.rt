//! The trace of a run as text.

use crate::lined::follow;
use crate::reply_lines::ReplyLines;
use crate::run_form::RunForm;
use crate::running::Machine;
use answer::as_text::{Text, faulty};
use drvhost_devices::device::Sink;
use drvhost_devices::fault::{End, Fault};
use drvhost_devices::told::Told;
use interleave::schedule::{Schedule, ScheduleFault};
use model::event::Reply;
use report::event_number::EventNumber;
use report::lines::Lines;
use report::word::Word;
use std::alloc::{AllocError, Global};

/// The lines of a run's replies as text.
#[derive(Drop)]
pub(crate) struct TextLines {
    /// The number of the event that comes next.
    pub(crate) number: EventNumber,
    pub(crate) lines: Lines,
}

impl ReplyLines for TextLines {
    ghost use Rattle.report.specs.Lines.{HasRoom};
    ghost use Rattle.report.specs.Reply.{reply_line};

    ghost line = { reply_line };

    ghost lacks = { ⊥ };

    ghost number = { λ page. page.number };

    ghost gathered = { λ page. page.lines };

    ghost has_room = { λ page. HasRoom page.lines };

    #[inline]
    fn is_full(&self) -> bool {
        !self.lines.has_room()
    }

    #[inline]
    fn bytes(&self) -> &[u8] {
        self.lines.bytes()
    }

    #[inline]
    fn clear(&mut self) {
        self.lines.clear();
    }

    #[inline]
    fn put(&mut self, reply: &Reply, count: u64) -> Result<u64, AllocError> {
        if count > 1 {
            if let Some(word) = Word::of(reply) {
                return Ok(self.lines.words(&mut self.number, word, count));
            }
        }
        self.lines.reply(&mut self.number, reply);
        self.number.advance();
        Ok(1)
    }
}

impl RunForm for Text {
    ghost use Rattle.std.specs.Prelude.{◌≡◌};
    ghost use Rattle.report.specs.Fault.{schedule_fault_line};
    ghost use Rattle.drvhost_devices.specs.Answer.{faulty, trace_of};

    ghost is_run = { λ _ all answer. answer ≡ trace_of all };

    ghost is_schedule_fault = { λ _ _ fault answer. answer ≡ faulty (schedule_fault_line fault) };

    fn schedule_fault(
        &self,
        alloc: Global,
        _name: &str,
        fault: ScheduleFault,
    ) -> Result<Told, AllocError> {
        let mut lines = Lines::new(alloc)?;
        lines.schedule_fault(fault);
        let mut line = Vec::new(alloc);
        line.extend_from_slice(lines.bytes())?;
        Ok(faulty(alloc, line))
    }

    fn follow<M: Machine, O: Sink>(
        &self,
        alloc: Global,
        machine: &mut M,
        schedule: &Schedule,
        out: &mut O,
    ) -> Result<End, Fault> {
        let mut page = TextLines {
            number: EventNumber::first(),
            lines: Lines::new(alloc)?,
        };
        follow(&mut page, machine, schedule, out)
    }
}
