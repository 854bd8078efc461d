//! What tells a run.

ghost use Rattle.std.specs.Prelude.{◌≡◌, [], IfOk, OnOk};
ghost use Rattle.tell_words.specs.Noted.{noted};

use crate::audited::{Audited, Left, add_audit};
use crate::front::Fronts;
use crate::line::{Happened, add_place, add_rest};
use crate::standing::{KeptWords, Standing};
use checked::Checked;
use model::event::Event;
use model::view::FrameView;
use std::alloc::{AllocError, Global};
use std::marker::Model;
use tell_audit::findings::Findings;
use tell_changes::add_change;
use tell_holders::Rights;
use tell_names::{Book, Place, add_alone};
use tell_uses::ledger::Ledger;
use words::Words;

/// Whose columns stand ready: those of a thread's step, behind so many bytes.
#[derive(Clone, Copy)]
struct Ahead {
    head: usize,
    thread: u8,
}

/// What tells a run: how the text calls things, what is noted for the audit, and the words that
/// were made last, in two parts. Contracts see the numbers of the events that were refused, in
/// order.
#[derive(Drop)]
pub struct Teller<'a> {
    book: Book<'a>,
    audited: Audited,
    /// How many bytes stand before the words.
    head: usize,
    /// The first part: the columns.
    fronts: Fronts,
    /// Whose columns stand ready, if they are those of a step that a routine made by itself, and no
    /// other event came since.
    ahead: Option<Ahead>,
    /// The second part, unless that is the line of an instruction and nothing else.
    words: Words,
    /// That line.
    line: Option<Place>,
    /// What the last event changed.
    change: Words,
    /// Words that may come again, and what those of the last event hang on, if they are kept.
    kept: KeptWords,
    standing: Option<Standing>,
}

impl<'a> Model for Teller<'a> {
    ghost use Rattle.std.specs.Prelude.{List, ℕ};

    ghost Value = { List ℕ };

    ghost view = { λ t. t.audited };
}

impl<'a> Teller<'a> {
    /// That of a run before the first event, with the names and the lines of the text of its set.
    ///
    /// # Errors
    ///
    /// When memory runs out.
    pub fn of(alloc: Global, text: &'a [u8]) -> Result<Teller<'a>, AllocError>
        ensures { IfOk result (λ teller. teller ≡ []) }
    {
        Ok(Teller {
            book: Book::of(alloc, text)?,
            audited: Audited::new(alloc),
            head: 0,
            fronts: Fronts::new(alloc)?,
            ahead: None,
            words: Words::new(alloc),
            line: None,
            change: Words::new(alloc),
            kept: KeptWords::new(alloc)?,
            standing: None,
        })
    }

    /// Notes the event of a number, by the machine after it.
    ///
    /// # Errors
    ///
    /// When memory runs out.
    pub fn note(
        &mut self,
        number: u64,
        happened: &Happened,
        machine: &Checked,
    ) -> Result<(), AllocError>
        ensures { OnOk result (self.new ≡ noted self.old number happened.now.reply) }
    {
        self.ahead = None;
        self.audited.note(number, happened, machine)
    }

    /// Whether the words that were made last stand behind so many bytes.
    pub fn is_behind(&self, head: usize) -> bool {
        self.head == head
    }

    /// Makes the words that stand behind an event's number and its reply, which are so many bytes,
    /// by the machine after it.
    ///
    /// # Errors
    ///
    /// When memory runs out.
    pub fn tell(
        &mut self,
        head: usize,
        happened: &Happened,
        machine: &Checked,
    ) -> Result<(), AllocError>
        ensures { OnOk result (self.new ≡ self.old) }
    {
        self.head = head;
        self.ahead = None;
        self.fronts.make(head, &happened.event, machine)?;
        self.line = None;
        self.standing = Standing::of(happened, machine);
        let Some(standing) = self.standing else {
            return self.make_words(happened, machine);
        };
        if self.kept.get(standing).is_some() {
            return Ok(());
        }
        self.make_words(happened, machine)?;
        self.kept.keep(standing, self.words.text.as_str())
    }

    /// Makes the second part of the words of an event, by the machine after it.
    fn make_words(&mut self, happened: &Happened, machine: &Checked) -> Result<(), AllocError>
        ensures { OnOk result (self.new ≡ self.old) }
    {
        clear(&mut self.change);
        add_change(
            &mut self.change,
            &self.book,
            &happened.event,
            &happened.moment,
            &happened.reply,
            machine,
        );
        whole(&self.change)?;
        clear(&mut self.words);
        let change = self.change.text.as_str();
        add_rest(&mut self.words, &self.book, happened, machine, change);
        whole(&self.words)
    }

    /// Makes the words of a step that a thread's routine made by itself, behind a head of so many
    /// bytes: its place before, and what it did, by the machine after it. The columns stay those of
    /// the step before it, where that was one of the same thread, and no other event came between.
    ///
    /// # Errors
    ///
    /// When memory runs out.
    pub fn tell_alone(
        &mut self,
        head: usize,
        thread: u8,
        place: FrameView,
        machine: &Checked,
    ) -> Result<(), AllocError>
        ensures { OnOk result (self.new ≡ self.old) }
    {
        if !self.is_ahead(head, thread) {
            self.head = head;
            self.ahead = None;
            self.fronts.make(head, &Event::Step { thread }, machine)?;
            self.ahead = Some(Ahead { head, thread });
        }
        self.standing = None;
        clear(&mut self.words);
        self.make_alone(thread, place, machine);
        whole(&self.words)
    }

    /// Makes the second part of the words of such a step.
    fn make_alone(&mut self, thread: u8, place: FrameView, machine: &Checked)
        ensures { self.new ≡ self.old }
    {
        self.line = self.book.line_at(place);
        let Some(line) = self.line else {
            return add_place(&mut self.words, &self.book, place, machine);
        };
        self.words.add(self.book.words_before_change(line));
        let bare = self.words.text.len();
        add_alone(&mut self.words, &self.book, thread, place, machine);
        if self.words.text.len() > bare {
            self.line = None;
        }
    }

    /// Whether the columns that were made last are those of a thread behind so many bytes.
    fn is_ahead(&self, head: usize, thread: u8) -> bool {
        match self.ahead {
            Some(ahead) => ahead.head == head && ahead.thread == thread,
            None => false,
        }
    }

    /// Makes the words of the audit, by what was found in the machine and the ledger after the run,
    /// and by the rights to packets, where the set is accepted.
    ///
    /// # Errors
    ///
    /// When memory runs out.
    pub fn tell_audit(
        &mut self,
        alloc: Global,
        machine: &Checked,
        found: &Findings,
        ledger: &Ledger,
        rights: Option<&Rights>,
    ) -> Result<(), AllocError> {
        self.line = None;
        self.standing = None;
        clear(&mut self.words);
        add_audit(
            alloc,
            &mut self.words,
            &self.book,
            &self.audited,
            &Left {
                machine,
                found,
                ledger,
                rights,
            },
        );
        whole(&self.words)
    }

    /// The first part of the words that were made last: the columns.
    pub fn front(&self) -> &[u8] {
        self.fronts.last()
    }

    /// The second part: the place, and what changed; or the words of the audit.
    pub fn words(&self) -> &[u8] {
        if let Some(place) = self.line {
            return self.book.words_of(place).as_bytes();
        }
        match self.standing.and_then(|standing| self.kept.get(standing)) {
            Some(words) => words.as_bytes(),
            None => self.words.text.as_bytes(),
        }
    }
}

/// Makes words none.
fn clear(words: &mut Words) {
    words.text.clear();
    words.lacks = false;
}

/// That nothing of words is missing.
fn whole(words: &Words) -> Result<(), AllocError> {
    if words.lacks {
        return Err(AllocError);
    }
    Ok(())
}
