//! What is carried along a run for its audit.

ghost use Rattle.std.specs.Prelude.{true, ◌≡◌, ◌++◌, [], IfOk, OnOk, length, option_to_list};
ghost use Rattle.std.specs.Prelude.{replicate, slice_get};
ghost use Rattle.tell_uses.specs.Ledger.{new_server, of_server, served_as, settled, settled_at};
ghost use Rattle.tell_uses.specs.Ledger.{settled_place, stays};
ghost use Rattle.tell_uses.specs.Uses.{disagreeing_at, disagreeing_from};
ghost use Rattle.laws_runs.specs.Waits.{says_unchanged};

use crate::acts::{Onward, UseStep};
use crate::standing::{frames_on, thread_of};
use crate::uses::{LocationUse, Note, Uses};
use checked::{Checked, says_unchanged};
use checked_parts::Frame;
use driver_set::{DriverSet, Sort};
use laws_runs::pending_returns_agree;
use model::event::{Event, Reply};
use model::world::{Activation, Value};
use std::alloc::{AllocError, Global};
use std::marker::Model;

/// What a frame is: the I/O manager's, or a routine's, which serves a use or none.
#[derive(Clone, Copy)]
pub enum Server {
    Manager,
    Routine(Option<LocationUse>),
}

impl Server {
    /// The use that it serves.
    fn served(self) -> Option<LocationUse>
        ensures { result ≡ of_server self }
    {
        match self {
            Server::Routine(serving) => serving,
            Server::Manager => None,
        }
    }

    /// Whether a frame is still what it was.
    fn stays(&self, frame: &Frame) -> bool
        ensures { result ≡ stays self.now frame.now }
    {
        matches!(self, Server::Routine(_)) == frame.activation().is_some()
    }
}

/// The use that a routine serves which begins: a dispatch routine's is that of the current location
/// of the packet that it is handed.
fn served_as(uses: &Uses, a: &Activation, sort: Sort) -> Option<LocationUse>
    ensures { result ≡ served_as uses.now a.now sort }
{
    match (sort, a.registers[0]) {
        (Sort::Dispatch, Value::Ref(n)) => Some(LocationUse::of(n, uses.current(n)?)),
        _ => None,
    }
}

/// What a frame is that is new at its place.
fn new_server(set: &DriverSet, uses: &Uses, frame: &Frame) -> Server
    ensures { result ≡ new_server set.now uses.now frame.now }
{
    match frame.activation() {
        Some(a) => Server::Routine(served_as(uses, a, set.sort(a.driver, a.routine))),
        None => Server::Manager,
    }
}

/// What the frames of a thread are, the lowest first.
#[derive(Drop)]
struct Row {
    servers: Vec<Server>,
}

impl Model for Row {
    ghost use Rattle.std.specs.Prelude.{List};
    ghost use Rattle.tell_uses.specs.declared.ledger.Server.{Server};

    ghost Value = { List Server };

    ghost view = { λ r. r.servers.items };
}

impl Row {
    ghost use Rattle.std.specs.Prelude.{◌-◌, slice_index_or};
    ghost use Rattle.tell_uses.specs.declared.ledger.Server.TheVariants.{Manager};

    /// Of an idle thread.
    fn idle(alloc: Global) -> Row
        ensures { result ≡ [] }
    {
        Row {
            servers: Vec::new(alloc),
        }
    }

    /// The use that the top frame serves.
    fn served(&self) -> Option<LocationUse>
        ensures { result ≡ of_server (slice_index_or self.now (length self.now - 1) Manager) }
    {
        self.servers.last()?.served()
    }

    /// The use that the frame at a place serves.
    fn served_at(&self, place: usize) -> Option<LocationUse>
        ensures { result ≡ of_server (slice_index_or self.now place Manager) }
    {
        self.servers.get(place)?.served()
    }

    /// A frame stands at a place.
    fn settle_at(
        &mut self,
        set: &DriverSet,
        uses: &Uses,
        place: usize,
        frame: &Frame,
    ) -> Result<(), AllocError>
        ensures { OnOk result (self.new
            ≡ settled_at set.now uses.now self.old place frame.now (slice_get self.old place)) }
    {
        let Some(server) = self.servers.get(place) else {
            self.servers.push(new_server(set, uses, frame))?;
            return Ok(());
        };
        if !server.stays(frame) {
            self.servers[place] = new_server(set, uses, frame);
        }
        Ok(())
    }

    /// The frame of a place among these stands there.
    fn settle_place(
        &mut self,
        set: &DriverSet,
        uses: &Uses,
        frames: &[Frame],
        place: usize,
    ) -> Result<(), AllocError>
        ensures { OnOk result (self.new
            ≡ settled_place set.now uses.now self.old place (slice_get frames.now place)) }
    {
        match frames.get(place) {
            Some(frame) => self.settle_at(set, uses, place, frame),
            None => Ok(()),
        }
    }

    /// These frames stand.
    fn settle(&mut self, set: &DriverSet, uses: &Uses, frames: &[Frame]) -> Result<(), AllocError>
        ensures { OnOk result (self.new ≡ settled set.now uses.now self.old frames.now) }
    {
        for place in 0..frames.len() {
            self.settle_place(set, uses, frames, place)?;
        }
        self.servers.truncate(frames.len());
        Ok(())
    }
}

/// What is known of the uses of stack locations, and which use each frame serves that stands.
#[derive(Drop)]
pub struct Ledger {
    known: Uses,
    row_list: Vec<Row>,
}

impl Model for Ledger {
    ghost use Rattle.tell_uses.specs.Ledger.{LedgerState};

    ghost Value = { LedgerState };

    ghost view = { λ l. record {
      uses = l.known;
      rows = l.row_list.items;
    } };
}

/// The rows of so many idle threads.
fn idle_rows(alloc: Global, threads: u8) -> Result<Vec<Row>, AllocError>
    ensures { IfOk result (λ rows. rows.items ≡ replicate threads []) }
{
    let mut rows = Vec::new(alloc);
    for _thread in 0..threads {
        rows.push(Row::idle(alloc))?;
    }
    Ok(rows)
}

/// The use of a number, if it disagrees.
fn disagreeing_at(notes: &[Note], number: u64) -> Option<LocationUse>
    ensures { result ≡ disagreeing_at number (slice_get notes.now number) }
{
    let note = notes.get(number as usize)?;
    if note.disagrees() {
        Some(LocationUse::of(note.packet, number))
    } else {
        None
    }
}

/// Adds the use of a number, if it disagrees.
fn add_disagreeing(
    found: &mut Vec<LocationUse>,
    notes: &[Note],
    number: u64,
) -> Result<(), AllocError>
    ensures { OnOk result (found.new.items ≡ found.old.items
        ++ option_to_list (disagreeing_at number (slice_get notes.now number))) }
{
    if let Some(location_use) = disagreeing_at(notes, number) {
        found.push(location_use)?;
    }
    Ok(())
}

/// The uses of these notes that disagree.
fn disagreeing_of(alloc: Global, notes: &[Note]) -> Result<Vec<LocationUse>, AllocError>
    ensures { IfOk result (λ found. found.items ≡ disagreeing_from 0 notes.now) }
{
    let mut found = Vec::new(alloc);
    for number in 0..notes.len() as u64 {
        add_disagreeing(&mut found, notes, number)?;
    }
    Ok(found)
}

impl Ledger {
    ghost use Rattle.model.specs.Run.{begun};
    ghost use Rattle.model.specs.Set.{Set};
    ghost use Rattle.tell_uses.specs.Acts.{actions_of, leave_actions};
    ghost use Rattle.tell_uses.specs.Ledger.{Disagreeing, NoneIfAccepted, Notes, Tells, TellsOn};
    ghost use Rattle.tell_uses.specs.Ledger.{row_settled, served_at, served_on};
    ghost use Rattle.tell_uses.specs.Uses.{DoesAll};

    /// That of a run over so many threads, before the first event.
    ///
    /// # Errors
    ///
    /// When memory runs out.
    pub fn new(alloc: Global, threads: u8) -> Result<Ledger, AllocError>
        ensures { IfOk result (λ ledger. (set : Set) → Tells (begun set threads) ledger) }
    {
        Ok(Ledger {
            known: Uses::new(alloc),
            row_list: idle_rows(alloc, threads)?,
        })
    }

    /// The use that the top frame of a thread serves.
    fn served_on(&self, thread: u8) -> Option<LocationUse>
        ensures { result ≡ served_on self.now.rows thread }
    {
        self.row_list.get(thread as usize)?.served()
    }

    /// Completion leaves a packet's current location.
    fn leave(&mut self, packet: u64, onward: Onward)
        ensures uses { DoesAll None (leave_actions packet onward) self.old.uses self.new.uses }
        ensures rows { self.new.rows ≡ self.old.rows }
    {
        self.known.leave(packet);
        match onward {
            Onward::Out => {}
            Onward::Up => self.known.up(packet),
            Onward::UpMarked => {
                self.known.up(packet);
                self.known.mark(packet);
            }
        }
    }

    /// An event on a thread does something to the uses.
    fn act(&mut self, alloc: Global, step: UseStep, thread: u8) -> Result<(), AllocError>
        ensures uses { OnOk result (DoesAll (served_on self.old.rows thread) (actions_of step)
            self.old.uses self.new.uses) }
        ensures rows { OnOk result (self.new.rows ≡ self.old.rows) }
    {
        match step {
            UseStep::Nothing => {}
            UseStep::Issue(n) => self.known.issue(alloc, n)?,
            UseStep::Call(n) => self.known.call(alloc, n)?,
            UseStep::Mark(n) => self.known.mark(n),
            UseStep::Leave(n, onward) => self.leave(n, onward),
            UseStep::Return(status) => {
                let serving = self.served_on(thread);
                self.known.returns(serving, status);
            }
        }
        Ok(())
    }

    /// The frames of a thread stand as in a machine.
    fn settle(&mut self, thread: u8, machine: &Checked) -> Result<(), AllocError>
        ensures uses { OnOk result (self.new.uses ≡ self.old.uses) }
        ensures rows { OnOk result (self.new.rows ≡ row_settled machine.now.set machine.now.world
            self.old.uses thread self.old.rows (slice_get self.old.rows thread)) }
    {
        let Some(row) = self.row_list.get_mut(thread as usize) else {
            return Ok(());
        };
        row.settle(
            machine.set(),
            &self.known,
            frames_on(machine, thread as usize),
        )
    }

    /// Notes what an event on a thread did.
    fn note_on(
        &mut self,
        alloc: Global,
        step: UseStep,
        thread: u8,
        machine: &Checked,
    ) -> Result<(), AllocError>
        ensures { OnOk result
            (Notes machine.now.set machine.now.world thread step self.old self.new) }
    {
        self.act(alloc, step, thread)?;
        self.settle(thread, machine)
    }

    /// Notes an event of a run, by what it does to the uses, which was read before it, the reply to
    /// it, and the machine after it.
    ///
    /// # Errors
    ///
    /// When memory runs out.
    pub fn note(
        &mut self,
        alloc: Global,
        step: UseStep,
        event: &Event,
        reply: &Reply,
        machine: &Checked,
    ) -> Result<(), AllocError>
        ensures told { OnOk result (TellsOn machine.now.set machine.now.world event.now step
            reply.now self.old self.new) }
        ensures kept { says_unchanged reply.now ≡ true → OnOk result (self.new ≡ self.old) }
    {
        let Some(thread) = thread_of(event) else {
            return Ok(());
        };
        if says_unchanged(reply) {
            return Ok(());
        }
        self.note_on(alloc, step, thread, machine)?;
        Ok(())
    }

    /// What is known of the uses, by their numbers.
    pub fn notes(&self) -> &[Note]
        ensures { result.now ≡ self.now.uses.notes }
    {
        self.known.notes()
    }

    /// The use that a frame of a thread serves, by its place above the lowest one.
    pub fn served_at(&self, thread: u8, place: usize) -> Option<LocationUse>
        ensures { result ≡ served_at self.now.rows thread place }
    {
        self.row_list.get(thread as usize)?.served_at(place)
    }

    /// What is known of a use.
    pub fn note_of(&self, location_use: LocationUse) -> Option<Note> {
        self.known
            .notes()
            .get(location_use.number() as usize)
            .copied()
    }

    /// The uses that were returned from otherwise than they were marked when completion left them,
    /// in the order in which they were opened.
    ///
    /// # Errors
    ///
    /// When memory runs out.
    pub fn disagreeing(&self, alloc: Global) -> Result<Vec<LocationUse>, AllocError>
        ensures told { IfOk result (λ found. Disagreeing self.now found.items) }
        ensures accepted { IfOk result (λ found. NoneIfAccepted self.now found.items) }
    {
        pending_returns_agree();
        let found = disagreeing_of(alloc, self.known.notes())?;
        Ok(found)
    }
}
