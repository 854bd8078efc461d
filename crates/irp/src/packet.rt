//! A live packet, and the calls that change it.

ghost use Rattle.std.specs.Prelude.{◌≡◌, ◌≤◌, ◌<◌, ◌-◌, ◌∷◌, [], true, false, length, nat_lt};
ghost use Rattle.std.specs.Prelude.{option_map, replicate, slice_get};
ghost use Rattle.model.specs.declared.limits.TheConstants.{MAX_STACK};
ghost use Rattle.model.specs.World.{unused_location};

use crate::location::Location;
use arrayvec::ArrayVec;
use model::instr::Field;
use model::limits::MAX_STACK;
use model::status::{Major, Status};
use model::world::{Armer, Completion};
use std::marker::Model;
use std::mem;

/// A live packet (IRP): one that was issued and has not topped out.
///
/// Fields lie as they are declared: what each event reads stands together, before the locations, so
/// that it shares a cache line with the first two of them.
#[derive(Drop)]
pub struct Packet {
    number: u64,
    info: u64,
    depth: u8,
    status: Status,
    completing: bool,
    pending_returned: bool,
    cancel: bool,
    armer: Option<Armer>,
    /// All its locations, that of the top driver first.
    stack: ArrayVec<Location, MAX_STACK>,
}

impl Model for Packet {
    ghost use Rattle.std.specs.Prelude.{◌≤◌, length};
    ghost use Rattle.model.specs.declared.limits.TheConstants.{MAX_STACK};
    ghost use Rattle.model.specs.declared.world.Packet.{Packet};

    ghost Value = { Packet };

    ghost view = { λ p. record {
      number = p.number;
      depth = p.depth;
      locations =
          record { items = p.stack.items };
      status = p.status;
      info = p.info;
      completing =
          p.completing;
      pending_returned = p.pending_returned;
      cancel = p.cancel;
      armer = p.armer;
    } };

    ghost invariant = { λ p. length p.stack.items ≤ MAX_STACK };
}

/// A stack that has no locations gets so many: the first one as given, and the others unused.
fn fill(stack: &mut ArrayVec<Location, MAX_STACK>, size: u8, first: Location)
    requires empty { stack.old.items ≡ [] }
    requires room { size ≤ MAX_STACK }
    ensures { stack.new.items ≡ first ∷ replicate (size - 1) unused_location }
{
    stack.push(first);
    for _place in 0..size.saturating_sub(1) {
        stack.push(Location::unused());
    }
}

impl Packet {
    ghost use Rattle.model.specs.View.{marks_of};
    ghost use Rattle.model.specs.World.{new_packet, sent_down, shared_with, moved_up, carried_up};
    ghost use Rattle.model.specs.World.{mark_current, left_location, completed, cancelled};
    ghost use Rattle.model.specs.World.{with_armer, with_info, field_of, current_location};
    ghost use Rattle.model.specs.World.{completion_of, asked_of, is_marked};

    /// A new packet for a device of this stack size, 1 to 16: the first location asks the device,
    /// and is current.
    pub fn new(number: u64, device: u8, major: Major, argument: u64, stack: u8) -> Packet
        requires { stack ≤ MAX_STACK }
        ensures { result ≡ new_packet number device major argument stack }
    {
        let mut packet = Packet {
            number,
            info: 0,
            depth: 1,
            status: Status::Success,
            completing: false,
            pending_returned: false,
            cancel: false,
            armer: None,
            stack: ArrayVec::new(),
        };
        let first = Location::asked(major, argument, device);
        fill(&mut packet.stack, stack, first);
        packet
    }

    /// Its number: packets are numbered in the order of their issue.
    pub fn number(&self) -> u64
        ensures { result ≡ self.now.number }
    {
        self.number
    }

    /// Which location is current: 1 is the top driver's.
    pub fn depth(&self) -> u8
        ensures { result ≡ self.now.depth }
    {
        self.depth
    }

    /// How many locations it has.
    pub fn stack_size(&self) -> usize
        ensures size { result ≡ length self.now.locations.items }
        ensures fits { result ≤ MAX_STACK }
    {
        self.stack.len()
    }

    /// Whether there is a location below the current one.
    pub fn has_room_below(&self) -> bool
        ensures { result ≡ nat_lt self.now.depth (length self.now.locations.items) }
    {
        (self.depth as usize) < self.stack.len()
    }

    /// The status with which it is completed.
    pub fn status(&self) -> Status
        ensures { result ≡ self.now.status }
    {
        self.status
    }

    /// IoStatus.Information.
    pub fn info(&self) -> u64
        ensures { result ≡ self.now.info }
    {
        self.info
    }

    /// Whether IoCompleteRequest was called, so that the I/O manager has it.
    pub fn is_completing(&self) -> bool
        ensures { result ≡ self.now.completing }
    {
        self.completing
    }

    /// Irp->PendingReturned: whether the location that completion left last was marked.
    pub fn pending_returned(&self) -> bool
        ensures { result ≡ self.now.pending_returned }
    {
        self.pending_returned
    }

    /// Irp->Cancel: whether IoCancelIrp was called.
    pub fn is_cancelled(&self) -> bool
        ensures { result ≡ self.now.cancel }
    {
        self.cancel
    }

    /// Whose cancel routine is set, if one is.
    pub fn armer(&self) -> Option<Armer>
        ensures { result ≡ self.now.armer }
    {
        self.armer
    }

    /// The location at a place, that of the top driver first: none where it has no more.
    pub fn location(&self, place: usize) -> Option<&Location>
        ensures { option_map (λ l. l.now) result ≡ slice_get self.now.locations.items place }
    {
        self.stack.get(place)
    }

    /// The place of its current location.
    fn place(&self) -> usize
        ensures { result ≡ self.now.depth - 1 }
    {
        self.depth.saturating_sub(1) as usize
    }

    /// Its current location, if it has one.
    fn current(&self) -> Option<&Location>
        ensures { option_map (λ l. l.now) result ≡ current_location self.now }
    {
        self.stack.get(self.place())
    }

    /// The completion routine of the current location.
    pub fn completion(&self) -> Option<Completion>
        ensures { result ≡ completion_of (current_location self.now) }
    {
        self.current()?.completion()
    }

    /// The major function that the current location asks for.
    pub fn asked_major(&self) -> Option<Major>
        ensures { result ≡ asked_of (current_location self.now) }
    {
        self.current()?.major()
    }

    /// Whether the current location is marked.
    pub fn is_marked(&self) -> bool
        ensures { result ≡ is_marked (current_location self.now) }
    {
        match self.current() {
            Some(location) => location.is_marked(),
            None => false,
        }
    }

    /// SL_PENDING_RETURNED of each location, and not set where it has no location.
    pub fn marks(&self) -> [bool; MAX_STACK]
        ensures { result ≡ marks_of self.now.locations.items }
    {
        let mut marks = [false; MAX_STACK];
        #[tactic(auto, using(crate::proofs::Marks::marks_on))]
        for (place, location) in self.stack.iter().enumerate() {
            marks[place] = location.is_marked();
        }
        marks
    }

    /// What a driver reads of it: the major function and the argument are the current location's.
    pub fn field(&self, field: Field) -> u64
        ensures { result ≡ field_of self.now field }
    {
        match field {
            Field::Info => self.info,
            _ => match self.current() {
                Some(location) => location.field(field),
                None => 0,
            },
        }
    }

    /// Sets IoStatus.Information.
    pub fn set_info(&mut self, info: u64)
        ensures { self.new ≡ with_info self.old info }
    {
        self.info = info;
    }

    /// Sets IoStatus.Status, for a machine that doesn't keep whether the I/O manager has it.
    pub fn set_status(&mut self, status: Status)
        ensures { self.new ≡ record self.old { status = status } }
    {
        self.status = status;
    }

    /// IoMarkIrpPending: marks the current location.
    pub fn mark(&mut self)
        ensures { self.new ≡ mark_current self.old }
    {
        let place = self.place();
        if let Some(location) = self.stack.get_mut(place) {
            location.mark();
        }
    }

    /// IoCopyCurrentIrpStackLocationToNext, IoSetCompletionRoutine and IoCallDriver: the lower
    /// device is asked the same in the next location, which becomes current.
    pub fn down(&mut self, device: u8, completion: Option<Completion>)
        requires { self.old.depth < length self.old.locations.items }
        ensures { self.new ≡ sent_down self.old device completion }
    {
        let copied = match self.current() {
            Some(location) => location.copied_to(device, completion),
            None => Location::unasked(device, completion),
        };
        if let Some(location) = self.stack.get_mut(self.depth as usize) {
            *location = copied;
            self.depth += 1;
        }
    }

    /// IoSkipCurrentIrpStackLocation and IoCallDriver: the lower device is asked in the current
    /// location.
    pub fn share(&mut self, device: u8)
        ensures { self.new ≡ shared_with self.old device }
    {
        let place = self.place();
        if let Some(location) = self.stack.get_mut(place) {
            location.redirect(device);
        }
    }

    /// IoCompleteRequest: the I/O manager has the packet, with its final status.
    pub fn complete(&mut self, status: Status)
        ensures { self.new ≡ completed self.old status }
    {
        self.set_status(status);
        self.give_back();
    }

    /// The I/O manager lends it to a completion routine that may hold it.
    pub fn lend(&mut self)
        ensures { self.new ≡ record self.old { completing = false } }
    {
        self.completing = false;
    }

    /// The I/O manager has it again, and goes on with its completion.
    pub fn give_back(&mut self)
        ensures { self.new ≡ record self.old { completing = true } }
    {
        self.completing = true;
    }

    /// IoCancelIrp: the packet is to be cancelled.
    pub fn cancel(&mut self)
        ensures { self.new ≡ cancelled self.old }
    {
        self.cancel = true;
    }

    /// IoSetCancelRoutine: the cancel word becomes this one, and what it was is answered.
    pub fn exchange(&mut self, armer: Option<Armer>) -> Option<Armer>
        ensures word { result ≡ self.old.armer }
        ensures packet { self.new ≡ with_armer self.old armer }
    {
        mem::replace(&mut self.armer, armer)
    }

    /// Completion leaves the current location: Irp->PendingReturned becomes its mark.
    pub fn leave(&mut self)
        ensures { self.new ≡ left_location self.old }
    {
        self.pending_returned = self.is_marked();
    }

    /// The location above becomes current.
    pub fn up(&mut self)
        ensures { self.new ≡ moved_up self.old }
    {
        self.depth = self.depth.saturating_sub(1);
    }

    /// The location above becomes current, and is marked if the one that completion left was.
    pub fn carry_up(&mut self)
        ensures { self.new ≡ carried_up self.old }
    {
        self.up();
        if self.pending_returned {
            self.mark();
        }
    }
}
