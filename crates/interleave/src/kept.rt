//! Events that are kept beside the bytes of a schedule's steps.

ghost use Rattle.std.specs.Prelude.{◌≡◌, IsTrue};
ghost use Rattle.model.specs.declared.event.Event.TheVariants.{Issue};
ghost use Rattle.interleave.specs.Kept.{IsKept, asking, repeated_of};

use crate::read::Repeated;
use model::event::Event;
use model::status::Major;
use std::marker::Model;

/// An event, and how often it happens, in 16 bytes: memory that is touched for the first time is
/// most of what an entry costs. Contracts see the repeated event.
#[derive(Drop)]
pub(crate) struct Kept {
    /// How often a thread steps, the argument of a request, or the packet that is cancelled.
    number: u64,
    what: What,
    /// The thread, or the device of an interrupt.
    first: u8,
    /// The device, or the level of a cancel.
    second: u8,
}

/// What happens.
#[derive(Clone, Copy)]
enum What {
    Steps,
    Reads,
    Writes,
    Controls,
    Cancels,
    Interrupts,
    BeginsDpc,
    BeginsStartIo,
}

impl Model for Kept {
    ghost use Rattle.interleave.specs.declared.read.Repeated.{Repeated};
    ghost use Rattle.interleave.specs.Kept.{repeated_of};

    ghost Value = { Repeated };

    ghost view = { λ k. repeated_of k.what k.first k.second k.number };
}

impl Kept {
    /// A thread's steps, or another event that happens once.
    pub(crate) fn of(repeated: Repeated) -> Kept
        requires { IsKept repeated }
        ensures { result ≡ repeated }
    {
        match repeated.event {
            Event::Step { thread } => Kept::new(What::Steps, thread, 0, repeated.count as u64),
            Event::Issue {
                thread,
                device,
                major,
                argument,
            } => Kept::new(asking(major), thread, device, argument),
            Event::Cancel {
                thread,
                packet,
                level,
            } => Kept::new(What::Cancels, thread, level, packet),
            Event::Interrupt { device } => Kept::new(What::Interrupts, device, 0, 0),
            Event::Dpc { thread, device } => Kept::new(What::BeginsDpc, thread, device, 0),
            Event::StartIo { thread, device } => Kept::new(What::BeginsStartIo, thread, device, 0),
        }
    }

    fn new(what: What, first: u8, second: u8, number: u64) -> Kept
        ensures { result ≡ repeated_of what first second number }
    {
        Kept {
            number,
            what,
            first,
            second,
        }
    }

    /// How often it happens.
    #[inline]
    pub(crate) fn count(&self) -> usize
        ensures { result ≡ self.now.count }
    {
        match self.what {
            What::Steps => self.number as usize,
            _ => 1,
        }
    }

    /// What happens.
    #[inline]
    pub(crate) fn event(&self) -> Event
        ensures { result ≡ self.now.event }
    {
        match self.what {
            What::Steps => Event::Step { thread: self.first },
            What::Reads => request(self.first, self.second, Major::Read, self.number),
            What::Writes => request(self.first, self.second, Major::Write, self.number),
            What::Controls => request(self.first, self.second, Major::Control, self.number),
            What::Cancels => Event::Cancel {
                thread: self.first,
                packet: self.number,
                level: self.second,
            },
            What::Interrupts => Event::Interrupt { device: self.first },
            What::BeginsDpc => Event::Dpc {
                thread: self.first,
                device: self.second,
            },
            What::BeginsStartIo => Event::StartIo {
                thread: self.first,
                device: self.second,
            },
        }
    }
}

/// A request to a device.
#[inline]
fn request(thread: u8, device: u8, major: Major, argument: u64) -> Event
    ensures { result ≡ Issue thread device major argument }
{
    Event::Issue {
        thread,
        device,
        major,
        argument,
    }
}

/// What a request of a major function is.
fn asking(major: Major) -> What
    ensures { result ≡ asking major }
{
    match major {
        Major::Read => What::Reads,
        Major::Write => What::Writes,
        Major::Control => What::Controls,
    }
}

/// Whether it is steps, or another event that happens once.
pub(crate) fn is_kept(repeated: &Repeated) -> bool
    ensures { IsTrue result → IsKept repeated.now }
{
    match repeated.event {
        Event::Step { .. } => true,
        _ => repeated.count == 1,
    }
}
