//! The events of a run, told as they happen.

ghost use Rattle.std.specs.Prelude.{◌≡◌, ◌+◌, ◌++◌, ◌<◌, ◌^◌, ◌||◌, [], IfOk, OnOk, false};
ghost use Rattle.model.specs.Machine.{AppliesWhole};
ghost use Rattle.model.specs.Run.{begun};
ghost use Rattle.model.specs.Set.{Set};
ghost use Rattle.report_json.specs.declared.told.Circumstances.{Circumstances};
ghost use Rattle.report_json.specs.Line.{json_line};
ghost use Rattle.report_json.specs.Told.{told_json};
ghost use Rattle.tell_json.specs.Telling.{LedgerGoesOn, is_refused};
ghost use Rattle.tell_uses.specs.Ledger.{Tells as TellsRun};

use checked::Checked;
use model::event::{Event, Reply};
use model::view::FrameView;
use report_json::json_lines::JsonLines;
use report_json::told::{Circumstances, ToldEvent};
use std::alloc::{AllocError, Global};
use tell_changes::{Moment, add_change};
use tell_names::Book;
use tell_uses::acts::use_step_of;
use tell_uses::ledger::Ledger;
use tell_uses::standing::thread_of;
use words::Words;

/// A run as it is told, by its events so far.
#[derive(Drop)]
pub struct Telling<'a> {
    alloc: Global,
    /// How the text calls things.
    book: Book<'a>,
    /// What is known of uses of stack locations.
    pub ledger: Ledger,
    /// The number of the event that comes next.
    pub number: u64,
    /// Whether one was refused.
    pub refused: bool,
    /// The lines of the events.
    pub lines: JsonLines,
}

impl<'a> Telling<'a> {
    /// That of a run over so many threads before the first event, with the names and the lines of
    /// the text of its set.
    ///
    /// # Errors
    ///
    /// When memory runs out.
    pub fn of(alloc: Global, text: &'a [u8], threads: u8) -> Result<Telling<'a>, AllocError>
        ensures lines { IfOk result (λ telling. telling.lines ≡ []) }
        ensures number { IfOk result (λ telling. telling.number ≡ 0) }
        ensures refused { IfOk result (λ telling. telling.refused ≡ false) }
        ensures ledger { IfOk result
            (λ telling. (set : Set) → TellsRun (begun set threads) telling.ledger) }
    {
        Ok(Telling {
            alloc,
            book: Book::of(alloc, text)?,
            ledger: Ledger::new(alloc, threads)?,
            number: 0,
            refused: false,
            lines: JsonLines::new(alloc),
        })
    }

    /// Runs an event, adds its line, and answers the reply to it.
    ///
    /// # Errors
    ///
    /// When memory runs out.
    pub fn tell(&mut self, machine: &mut Checked, event: &Event) -> Result<Reply, AllocError>
        requires { self.old.number + 1 < 2 ^ 64 }
        ensures applied { IfOk result (AppliesWhole machine.old event.now machine.new) }
        ensures noted { OnOk result
            (LedgerGoesOn machine.old event.now self.old.ledger self.new.ledger) }
        ensures number { OnOk result (self.new.number ≡ self.old.number + 1) }
        ensures refused { IfOk result (λ reply.
            self.new.refused ≡ self.old.refused || is_refused reply) }
        ensures told { IfOk result (λ reply. (around : Circumstances) × (self.new.lines
            ≡ self.old.lines ++ json_line (told_json self.old.number reply around))) }
    {
        let moment = Moment::before(machine, event);
        let step = use_step_of(machine, event, &moment.acting);
        let reply = machine.apply(event);
        self.ledger.note(self.alloc, step, event, &reply, machine)?;
        let around = circumstances(self.alloc, &self.book, event, &moment, &reply, machine)?;
        self.lines.add(&ToldEvent {
            number: self.number,
            reply,
            around: &around,
        })?;
        self.number += 1;
        self.refused |= is_refused(&reply);
        Ok(reply)
    }
}

/// The circumstances of an event, by the moment before it, and what it changed.
fn circumstances(
    alloc: Global,
    book: &Book<'_>,
    event: &Event,
    moment: &Moment,
    reply: &Reply,
    machine: &Checked,
) -> Result<Circumstances, AllocError> {
    let routine = acting_routine(alloc, book, moment)?;
    let changed = changed_words(alloc, book, event, moment, reply, machine)?;
    let thread = match thread_of(event) {
        Some(thread) => Some(thread as u64),
        None => None,
    };
    Ok(Circumstances {
        thread,
        routine,
        line: acting_line(book, moment),
        changed,
    })
}

/// What an event changed, by the moment before it.
fn changed_words(
    alloc: Global,
    book: &Book<'_>,
    event: &Event,
    moment: &Moment,
    reply: &Reply,
    machine: &Checked,
) -> Result<String, AllocError> {
    let mut words = Words::new(alloc);
    add_change(&mut words, book, event, moment, reply, machine);
    words.finish()
}

/// The name of the routine that acts, or what the I/O manager does, if either does something.
fn acting_routine(
    alloc: Global,
    book: &Book<'_>,
    moment: &Moment,
) -> Result<Option<String>, AllocError> {
    let Some(acting) = &moment.acting else {
        return Ok(None);
    };
    Ok(Some(routine_of(alloc, book, acting.frame)?))
}

/// The number of the line of the instruction that acts, if one does.
fn acting_line(book: &Book<'_>, moment: &Moment) -> Option<u64> {
    let Some(acting) = &moment.acting else {
        return None;
    };
    let Some(place) = book.line_at(acting.frame) else {
        return None;
    };
    Some(place.number)
}

/// The name of the routine that acts, or what the I/O manager does.
fn routine_of(alloc: Global, book: &Book<'_>, frame: FrameView) -> Result<String, AllocError> {
    let mut name = Words::new(alloc);
    match frame {
        FrameView::Routine {
            driver,
            routine,
            position: _,
            device: _,
        } => book.add_routine(&mut name, driver, routine),
        FrameView::Walk(_) | FrameView::Cancel(_) => book.add_spot(&mut name, frame),
    }
    name.finish()
}

/// Whether an event with this reply was refused.
fn is_refused(reply: &Reply) -> bool
    ensures { result ≡ is_refused reply.now }
{
    matches!(reply, Reply::Refused)
}
