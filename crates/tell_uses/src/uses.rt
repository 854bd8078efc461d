//! What is known of the uses of stack locations.

ghost use Rattle.std.specs.Prelude.{◌≡◌, ◌++◌, ◌∷◌, [], ⊤, drop, length, slice_get, IfOk, OnOk};
ghost use Rattle.std.specs.Prelude.{None, Some};
ghost use Rattle.model.specs.Action.{Calls, Issues, Leaves, Marks, Returns, Ups};
ghost use Rattle.model.specs.LocalRule.{is_pending};
ghost use Rattle.tell_uses.specs.Uses.{blank, left, marked, note_disagrees, returned};

use model::status::Status;
use std::alloc::{AllocError, Global};
use std::marker::Model;

/// A use of one of a packet's locations, by its number: uses are numbered in the order in which
/// they are opened.
#[derive(Clone, Copy)]
pub struct LocationUse {
    packet_number: u64,
    number: u64,
}

impl Model for LocationUse {
    ghost use Rattle.model.specs.Trace.{Serving};

    ghost Value = { Serving };

    ghost view = { λ u. record { packet = u.packet_number; «use» = u.number } };

    ghost inverse = { λ s. record { packet_number = s.packet; number = s.«use» } };
}

impl LocationUse {
    /// That of a packet and a number.
    pub(crate) fn of(packet: u64, number: u64) -> LocationUse
        ensures { result ≡ record { packet = packet; «use» = number } }
    {
        LocationUse {
            packet_number: packet,
            number,
        }
    }

    /// Its packet.
    pub fn packet(&self) -> u64
        ensures { result ≡ self.now.packet }
    {
        self.packet_number
    }

    /// Its number.
    pub fn number(&self) -> u64
        ensures { result ≡ self.now.«use» }
    {
        self.number
    }
}

/// What is known of a use.
#[derive(Clone, Copy)]
pub struct Note {
    /// The packet whose location it is of.
    pub packet: u64,
    /// It was marked pending.
    pub marked: bool,
    /// Completion left it, and it was marked then.
    pub left_marked: bool,
    /// Completion left it, and it was unmarked then.
    pub left_unmarked: bool,
    /// STATUS_PENDING was returned from it.
    pub returned_pending: bool,
    /// Another status that was returned from it, the last one.
    pub returned_other: Option<Status>,
}

impl Note {
    /// That of a use that is new.
    fn blank(packet: u64) -> Note
        ensures { result ≡ blank packet }
    {
        Note {
            packet,
            marked: false,
            left_marked: false,
            left_unmarked: false,
            returned_pending: false,
            returned_other: None,
        }
    }

    /// That of one that is marked pending.
    fn marked(self) -> Note
        ensures { result ≡ marked self }
    {
        Note {
            marked: true,
            ..self
        }
    }

    /// That of one that completion leaves.
    fn left(self) -> Note
        ensures { result ≡ left self }
    {
        Note {
            left_marked: self.marked || self.left_marked,
            left_unmarked: !self.marked || self.left_unmarked,
            ..self
        }
    }

    /// That of one from which a status is returned.
    fn returned(self, status: Status) -> Note
        ensures { result ≡ returned status self }
    {
        if status == Status::Pending {
            return Note {
                returned_pending: true,
                ..self
            };
        }
        Note {
            returned_other: Some(status),
            ..self
        }
    }

    /// Whether what was returned disagrees with the mark.
    pub fn disagrees(&self) -> bool
        ensures { result ≡ note_disagrees self.now }
    {
        (self.returned_pending && self.left_unmarked)
            || (self.returned_other.is_some() && self.left_marked)
    }
}

/// The uses of a packet's locations down to the current one. Most packets have one location, whose
/// use needs no memory of its own.
#[derive(Drop)]
struct Stack {
    /// That of the current location.
    current: Option<u64>,
    /// Those of the locations above it, the lowest last.
    above: Vec<u64>,
}

impl Model for Stack {
    ghost use Rattle.std.specs.Prelude.{List, ℕ, ◌≡◌, ◌++◌, [], None, option_to_list, reverse};

    ghost Value = { List ℕ };

    ghost view = { λ s. option_to_list s.current ++ reverse s.above.items };

    ghost invariant = { λ s. s.current ≡ None → s.above.items ≡ [] };
}

impl Stack {
    /// Of a packet without any.
    fn new(alloc: Global) -> Stack
        ensures { result ≡ [] }
    {
        Stack {
            current: None,
            above: Vec::new(alloc),
        }
    }

    /// That of the current location.
    fn current(&self) -> Option<u64>
        ensures { result ≡ slice_get self.now 0 }
    {
        self.current
    }

    /// A location below becomes current.
    fn push(&mut self, number: u64) -> Result<(), AllocError>
        ensures { OnOk result (self.new ≡ number ∷ self.old) }
    {
        if let Some(last) = self.current {
            self.above.push(last)?;
        }
        self.current = Some(number);
        Ok(())
    }

    /// The location above becomes current.
    fn pop(&mut self)
        ensures { self.new ≡ drop 1 self.old }
    {
        self.current = self.above.pop();
    }

    /// There are none.
    fn clear(&mut self)
        ensures { self.new ≡ [] }
    {
        self.current = None;
        self.above.clear();
    }
}

/// What is known of all uses.
#[derive(Drop)]
pub struct Uses {
    /// By their numbers.
    note_list: Vec<Note>,
    /// By the numbers of packets.
    stack_list: Vec<Stack>,
}

impl Model for Uses {
    ghost use Rattle.tell_uses.specs.Uses.{UsesState};

    ghost Value = { UsesState };

    ghost view = { λ u. record {
      notes = u.note_list.items;
      stacks = u.stack_list.items;
    } };
}

impl Uses {
    ghost use Rattle.std.specs.Prelude.{◌<◌, ℕ};
    ghost use Rattle.tell_uses.specs.Uses.{Does, Puts, current_at, disagreeing_from};
    ghost use Rattle.tell_uses.specs.Uses.{note_of_packet, noted, noted_serving, stack_at};

    /// Before the first is opened.
    pub(crate) fn new(alloc: Global) -> Uses
        ensures { result ≡ record { notes = []; stacks = [] } }
    {
        Uses {
            note_list: Vec::new(alloc),
            stack_list: Vec::new(alloc),
        }
    }

    /// Their notes, by their numbers.
    pub(crate) fn notes(&self) -> &[Note]
        ensures { result.now ≡ self.now.notes }
    {
        self.note_list.as_slice()
    }

    /// The use of a packet's current location.
    pub(crate) fn current(&self, packet: u64) -> Option<u64>
        ensures { result ≡ current_at self.now packet }
    {
        self.stack_list.get(packet as usize)?.current()
    }

    /// Makes room for the uses of a packet.
    fn reach(&mut self, alloc: Global, packet: u64) -> Result<(), AllocError>
        ensures notes { OnOk result (self.new.notes ≡ self.old.notes) }
        ensures stacks { OnOk result ((m : ℕ) → stack_at self.new m ≡ stack_at self.old m) }
        ensures there { OnOk result (packet < length self.new.stacks) }
    {
        while self.stack_list.len() as u64 <= packet {
            self.stack_list.push(Stack::new(alloc))?;
        }
        Ok(())
    }

    /// Opens a use of a packet's location, which becomes current.
    fn open(&mut self, packet: u64) -> Result<(), AllocError>
        requires { packet < length self.old.stacks }
        ensures notes { OnOk result (self.new.notes ≡ self.old.notes ++ blank packet ∷ []) }
        ensures stacks { OnOk result
            (Puts packet (length self.old.notes ∷ stack_at self.old packet) self.old self.new) }
    {
        let number = self.note_list.len() as u64;
        self.note_list.push(Note::blank(packet))?;
        self.stack_list[packet as usize].push(number)
    }

    /// A packet is issued.
    pub(crate) fn issue(&mut self, alloc: Global, packet: u64) -> Result<(), AllocError>
        ensures { OnOk result (Does None (Issues packet 0) self.old self.new) }
    {
        self.reach(alloc, packet)?;
        self.stack_list[packet as usize].clear();
        self.open(packet)
    }

    /// A packet is sent down in a location of its own.
    pub(crate) fn call(&mut self, alloc: Global, packet: u64) -> Result<(), AllocError>
        ensures { OnOk result (Does None (Calls packet) self.old self.new) }
    {
        self.reach(alloc, packet)?;
        self.open(packet)
    }

    /// The location above a packet's current one becomes current.
    pub(crate) fn up(&mut self, packet: u64)
        ensures { Does None (Ups packet) self.old self.new }
    {
        if let Some(stack) = self.stack_list.get_mut(packet as usize) {
            stack.pop();
        }
    }

    /// The note of a use of a packet's location, if there is one.
    fn note_of(&self, packet: u64, number: u64) -> Option<Note>
        ensures { result ≡ note_of_packet packet (slice_get self.now.notes number) }
    {
        let note = *self.note_list.get(number as usize)?;
        if packet == note.packet {
            Some(note)
        } else {
            None
        }
    }

    /// The current location of a packet is marked.
    pub(crate) fn mark(&mut self, packet: u64)
        ensures { Does None (Marks packet) self.old self.new }
    {
        let Some(number) = self.current(packet) else {
            return;
        };
        let Some(note) = self.note_of(packet, number) else {
            return;
        };
        self.note_list[number as usize] = note.marked();
    }

    /// Completion leaves the current location of a packet.
    pub(crate) fn leave(&mut self, packet: u64)
        ensures { Does None (Leaves packet) self.old self.new }
    {
        let Some(number) = self.current(packet) else {
            return;
        };
        let Some(note) = self.note_of(packet, number) else {
            return;
        };
        self.note_list[number as usize] = note.left();
    }

    /// A status is returned from a use, if one is served.
    pub(crate) fn returns(&mut self, serving: Option<LocationUse>, status: Status)
        ensures { Does serving (Returns status) self.old self.new }
    {
        let Some(served) = serving else {
            return;
        };
        let number = served.number();
        let Some(note) = self.note_of(served.packet(), number) else {
            return;
        };
        self.note_list[number as usize] = note.returned(status);
    }
}
