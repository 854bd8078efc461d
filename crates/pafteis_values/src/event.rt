//! An event as the header has it.

ghost use Rattle.std.specs.Prelude.{◌≡◌};
ghost use Rattle.pafteis_values.specs.Event.{event_named, issue_named, major_named};

use model::event::Event;
use model::status::Major;

/// An event: which kind, and what that kind needs. The other fields may be anything.
#[repr(C)]
#[derive(Clone, Copy)]
pub struct EventValue {
    /// The number of the packet: of a cancel.
    pub packet: u64,
    /// The argument of the request: of an issue.
    pub argument: u64,
    /// 1 issue, 2 cancel, 3 interrupt, 4 DPC, 5 StartIo, 6 step.
    pub kind: u32,
    /// The thread: of each but an interrupt.
    pub thread: u8,
    /// The device: of an issue, an interrupt, a DPC and a StartIo.
    pub device: u8,
    /// The IRP_MJ number of the request: of an issue. 3, 4 or 14.
    pub major: u8,
    /// The level at which a cancel is called.
    pub level: u8,
}

/// The event that a value names, if it names one.
pub fn event_of(value: &EventValue) -> Option<Event>
    ensures { result ≡ event_named value.now }
{
    let EventValue {
        packet,
        argument,
        kind,
        thread,
        device,
        major,
        level,
    } = *value;
    match kind {
        1 => issue_of(thread, device, major_of(major), argument),
        2 => Some(Event::Cancel {
            thread,
            packet,
            level,
        }),
        3 => Some(Event::Interrupt { device }),
        4 => Some(Event::Dpc { thread, device }),
        5 => Some(Event::StartIo { thread, device }),
        6 => Some(Event::Step { thread }),
        _ => None,
    }
}

/// The issue of a request, if its major function is known.
fn issue_of(thread: u8, device: u8, major: Option<Major>, argument: u64) -> Option<Event>
    ensures { result ≡ issue_named thread device major argument }
{
    let major = major?;
    Some(Event::Issue {
        thread,
        device,
        major,
        argument,
    })
}

/// The major function of an IRP_MJ number, if a request may have it.
fn major_of(number: u8) -> Option<Major>
    ensures { result ≡ major_named number }
{
    match number {
        3 => Some(Major::Read),
        4 => Some(Major::Write),
        14 => Some(Major::Control),
        _ => None,
    }
}
