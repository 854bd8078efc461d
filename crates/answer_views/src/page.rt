//! What is told of the events of a run, line by line.

ghost use Rattle.std.specs.Prelude.{◌≡◌, ◌+◌, ◌++◌, ◌<◌, ◌≤◌, ◌^◌, List, [], ℕ, IfOk, OnOk};
ghost use Rattle.report.specs.Reply.{reply_line, worded_line};
ghost use Rattle.tell_words.specs.Noted.{noted};
ghost use Rattle.answer_views.specs.Told.{ToldOnce, ToldTimes, has_occurred, headed};

use crate::levels::is_left_out;
use checked::Checked;
use drvhost_devices::manner::Detail;
use model::event::Reply;
use report::event_number::EventNumber;
use report::lines::Lines;
use std::alloc::{AllocError, Global};
use std::mem::drop;
use tell_words::{Happened, Teller};

/// For how many bytes there is room for each event: memory that grows is copied, and touched for
/// the first time once more, and memory that nobody touches costs nothing.
const ROOM_FOR_LINE: usize = 96;

/// The text of a run that is told, and what its lines are made with.
#[derive(Drop)]
pub(crate) struct Page<'a> {
    /// Of which events a line is told.
    pub(crate) detail: Detail,
    /// What makes the words.
    pub(crate) teller: Teller<'a>,
    /// The number of the event that comes next.
    pub(crate) number: EventNumber,
    /// The line of the trace for an event that is being told.
    pub(crate) lines: Lines,
    pub(crate) text: Vec<u8>,
}

impl<'a> Page<'a> {
    /// An empty one for so many events, with the names and the lines of a text.
    pub(crate) fn of(
        alloc: Global,
        source: &'a [u8],
        events: usize,
        detail: Detail,
    ) -> Result<Page<'a>, AllocError>
        ensures detail { IfOk result (λ page. page.detail ≡ detail) }
        ensures number { IfOk result (λ page. page.number ≡ 0) }
        ensures text { IfOk result (λ page. page.text.items ≡ []) }
    {
        let text = Vec::with_capacity(alloc, events.saturating_mul(ROOM_FOR_LINE))?;
        let lines = Lines::new(alloc)?;
        Ok(Page {
            detail,
            teller: Teller::of(alloc, source)?,
            number: EventNumber::first(),
            lines,
            text,
        })
    }

    /// What was told.
    pub(crate) fn into_text(self) -> Vec<u8>
        ensures { result ≡ self.entry.text }
    {
        let Page {
            teller,
            lines,
            text,
            ..
        } = self;
        drop(teller);
        drop(lines);
        text
    }

    /// Adds what is told of an event that happened so many times, by the machine after it.
    pub(crate) fn tell_times(
        &mut self,
        machine: &Checked,
        happened: &Happened,
        count: usize,
    ) -> Result<(), AllocError>
        requires some { 1 ≤ count }
        requires number { self.old.number + count < 2 ^ 64 }
        ensures detail { OnOk result (self.new.detail ≡ self.old.detail) }
        ensures number { OnOk result (self.new.number ≡ self.old.number + count) }
        ensures told { OnOk result (ToldTimes self.old.detail self.old.number
            (has_occurred happened.now) count self.old.text.items self.new.text.items) }
    {
        self.tell_seen(machine, happened)?;
        self.tell_again(machine, happened, count - 1)?;
        Ok(())
    }

    /// Adds what is told of an event that happened, by the machine after it.
    #[inline(never)]
    fn tell_seen(&mut self, machine: &Checked, happened: &Happened) -> Result<(), AllocError>
        requires { self.old.number + 1 < 2 ^ 64 }
        ensures detail { OnOk result (self.new.detail ≡ self.old.detail) }
        ensures number { OnOk result (self.new.number ≡ self.old.number + 1) }
        ensures refused { OnOk result
            (self.new.teller ≡ noted self.old.teller self.old.number happened.now.reply) }
        ensures told { OnOk result (ToldOnce self.old.detail self.old.number
            (has_occurred happened.now) self.old.text.items self.new.text.items) }
    {
        self.teller.note(self.number.value(), happened, machine)?;
        self.add_event(machine, happened)
    }

    /// Tells an event that happened so many times more, unless it is left out.
    fn tell_again(
        &mut self,
        machine: &Checked,
        happened: &Happened,
        count: usize,
    ) -> Result<(), AllocError>
        requires { self.old.number + count < 2 ^ 64 }
        ensures detail { OnOk result (self.new.detail ≡ self.old.detail) }
        ensures number { OnOk result (self.new.number ≡ self.old.number + count) }
        ensures told { OnOk result (ToldTimes self.old.detail self.old.number
            (has_occurred happened.now) count self.old.text.items self.new.text.items) }
    {
        if is_left_out(self.detail, happened) {
            self.number.advance_many(count as u64);
            return Ok(());
        }
        for _ in 0..count {
            self.add_again(machine, happened)?;
        }
        Ok(())
    }

    /// Adds what is told of an event, a line unless it is left out, and goes on to the next number.
    fn add_event(&mut self, machine: &Checked, happened: &Happened) -> Result<(), AllocError>
        requires { self.old.number + 1 < 2 ^ 64 }
        ensures kept { OnOk result (self.new.teller ≡ self.old.teller) }
        ensures detail { OnOk result (self.new.detail ≡ self.old.detail) }
        ensures number { OnOk result (self.new.number ≡ self.old.number + 1) }
        ensures told { OnOk result (ToldOnce self.old.detail self.old.number
            (has_occurred happened.now) self.old.text.items self.new.text.items) }
    {
        if is_left_out(self.detail, happened) {
            self.number.advance();
            return Ok(());
        }
        let head = self.begin_line(&happened.reply);
        self.teller.tell(head, happened, machine)?;
        self.end_line()
    }

    /// Adds the line of an event that is told again, with the words that were made last where they
    /// stand behind as many bytes.
    fn add_again(&mut self, machine: &Checked, happened: &Happened) -> Result<(), AllocError>
        requires { self.old.number + 1 < 2 ^ 64 }
        ensures detail { OnOk result (self.new.detail ≡ self.old.detail) }
        ensures number { OnOk result (self.new.number ≡ self.old.number + 1) }
        ensures told { OnOk result ((words : List ℕ) × (self.new.text.items
            ≡ self.old.text.items ++ worded_line self.old.number happened.now.reply words)) }
    {
        let head = self.begin_line(&happened.reply);
        make_words(&mut self.teller, head, happened, machine)?;
        self.end_line()
    }

    /// Begins the line of an event that replied so, as the trace has it. It answers how many bytes
    /// stand before its end.
    #[inline]
    pub(crate) fn begin_line(&mut self, reply: &Reply) -> usize
        ensures { self.new
            ≡ record self.old { lines = reply_line self.old.number reply.now } }
    {
        self.lines.clear();
        self.lines.reply(&mut self.number, reply);
        self.lines.bytes().len().saturating_sub(1)
    }

    /// Adds the line that was begun, with the words that were made last before its end, and goes on
    /// to the next number.
    #[inline]
    pub(crate) fn end_line(&mut self) -> Result<(), AllocError>
        requires { self.old.number + 1 < 2 ^ 64 }
        ensures kept { OnOk result (self.new.teller ≡ self.old.teller) }
        ensures detail { OnOk result (self.new.detail ≡ self.old.detail) }
        ensures number { OnOk result (self.new.number ≡ self.old.number + 1) }
        ensures told { OnOk result ((words : List ℕ) × (self.new.text.items
            ≡ self.old.text.items ++ headed self.old.lines words)) }
    {
        add_headed(
            &mut self.text,
            self.lines.bytes(),
            self.teller.front(),
            self.teller.words(),
        )?;
        self.number.advance();
        Ok(())
    }
}

/// Makes the words that stand behind so many bytes, unless those that were made last do.
fn make_words(
    teller: &mut Teller<'_>,
    head: usize,
    happened: &Happened,
    machine: &Checked,
) -> Result<(), AllocError>
    ensures { OnOk result (teller.new ≡ teller.old) }
{
    if teller.is_behind(head) {
        return Ok(());
    }
    teller.tell(head, happened, machine)
}

/// Adds a line, which is ready but for words in two parts that stand before its end.
#[inline]
fn add_headed(text: &mut Vec<u8>, line: &[u8], front: &[u8], rest: &[u8]) -> Result<(), AllocError>
    ensures { OnOk result
        (text.new.items ≡ text.old.items ++ headed line.now (front.now ++ rest.now)) }
{
    text.extend_from_slice(&line[..line.len().saturating_sub(1)])?;
    text.extend_from_slice(front)?;
    text.extend_from_slice(rest)?;
    text.push(b'\n')?;
    Ok(())
}
