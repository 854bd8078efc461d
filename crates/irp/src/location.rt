//! The stack locations of a packet.

ghost use Rattle.std.specs.Prelude.{◌≡◌, true};

use crate::control::Control;
use bitflags::Flags;
use model::instr::Field;
use model::status::Major;
use model::world::Completion;
use std::marker::Model;

/// An I/O stack location (IO_STACK_LOCATION): what the driver of its device is asked to do. Its
/// fields stand in the order in which they take 16 bytes.
#[derive(Default, Drop)]
pub struct Location {
    argument: u64,
    /// None while nothing was asked here.
    major: Option<Major>,
    device: u8,
    control: Control,
    /// What runs when completion leaves this location; the driver above set it.
    completion: Option<Completion>,
}

impl Model for Location {
    ghost use Rattle.std.specs.Prelude.{◌==◌};
    ghost use Rattle.std.specs.Int.RustNames.{bit_and};
    ghost use Rattle.model.specs.declared.world.Location.{Location};

    ghost Value = { Location };

    ghost view = { λ l. record {
      major = l.major;
      argument = l.argument;
      device = l.device;
      marked =
          bit_and l.control.0 1 == 1;
      completion = l.completion;
    } };
}

impl Location {
    ghost use Rattle.model.specs.World.{asked_location, copied_location, unused_location};
    ghost use Rattle.model.specs.World.{location_field};
    ghost use Rattle.std.specs.Prelude.{None, Some};

    /// A location at which nothing was asked yet.
    pub fn unused() -> Location
        ensures { result ≡ unused_location }
    {
        Location::default()
    }

    /// A location at which a device is asked something, with no control bit set.
    pub fn asked(major: Major, argument: u64, device: u8) -> Location
        ensures { result ≡ asked_location major argument device }
    {
        Location {
            major: Some(major),
            argument,
            device,
            control: Control::default(),
            completion: None,
        }
    }

    /// The location that asks a lower device the same, with no control bit set.
    pub fn copied_to(&self, device: u8, completion: Option<Completion>) -> Location
        ensures { result ≡ copied_location (Some self.now) device completion }
    {
        Location {
            major: self.major,
            argument: self.argument,
            device,
            control: Control::default(),
            completion,
        }
    }

    /// The location that hands a lower device nothing to do, with no control bit set.
    pub fn unasked(device: u8, completion: Option<Completion>) -> Location
        ensures { result ≡ copied_location None device completion }
    {
        Location {
            device,
            completion,
            ..Location::default()
        }
    }

    /// The device that is asked.
    pub fn device(&self) -> u8
        ensures { result ≡ self.now.device }
    {
        self.device
    }

    /// The major function that is asked for.
    pub fn major(&self) -> Option<Major>
        ensures { result ≡ self.now.major }
    {
        self.major
    }

    /// A field of a packet that stands in this location.
    pub fn field(&self, field: Field) -> u64
        ensures { result ≡ location_field (Some self.now) field }
    {
        match field {
            Field::Major => match self.major {
                Some(major) => u64::from(major.code()),
                None => 0,
            },
            Field::Argument => self.argument,
            Field::Info => 0,
        }
    }

    /// The completion routine that is set here.
    pub fn completion(&self) -> Option<Completion>
        ensures { result ≡ self.now.completion }
    {
        self.completion
    }

    /// Whether SL_PENDING_RETURNED is set.
    pub fn is_marked(&self) -> bool
        ensures { result ≡ self.now.marked }
    {
        self.control.contains(Control::PENDING_RETURNED)
    }

    /// Sets SL_PENDING_RETURNED.
    pub fn mark(&mut self)
        ensures { self.new ≡ record self.old { marked = true } }
    {
        self.control.insert(Control::PENDING_RETURNED);
    }

    /// Asks another device the same.
    pub fn redirect(&mut self, device: u8)
        ensures { self.new ≡ record self.old { device = device } }
    {
        self.device = device;
    }
}
