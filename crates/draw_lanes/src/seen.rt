//! Events, as they are seen.

use checked::Checked;
use model::event::{Event, Reply};
use model::instr::Instr;
use model::view::FrameView;
use tell_changes::Moment;
use tell_uses::acting::Acting;
use tell_uses::standing::thread_of;

/// An event that happened: the moment before it, and the machine after it.
#[derive(Clone, Copy)]
pub struct Seen<'a> {
    pub event: &'a Event,
    pub moment: &'a Moment,
    pub reply: &'a Reply,
    pub machine: &'a Checked,
    /// The top frame of its thread after it.
    pub top: Option<FrameView>,
}

impl<'a> Seen<'a> {
    /// An event, the moment before it, what the machine replied, and the machine after it.
    pub fn of(
        event: &'a Event,
        moment: &'a Moment,
        reply: &'a Reply,
        machine: &'a Checked,
    ) -> Seen<'a> {
        Seen {
            event,
            moment,
            reply,
            machine,
            top: top_after(machine, event),
        }
    }
}

/// The packet that an event is about, if it is one of a frame.
pub fn packet_of(seen: Seen<'_>) -> Option<u64> {
    if let Reply::Topped { packet, .. } = *seen.reply {
        return Some(packet);
    }
    match seen.moment.acting {
        Some(acting) => acting.packet,
        None => None,
    }
}

/// Whether a routine returns in an event.
pub(crate) fn is_return(seen: Seen<'_>) -> bool {
    matches!(
        seen.moment.acting,
        Some(Acting {
            instruction: Some(Instr::Ret(_)),
            ..
        })
    )
}

/// The top frame of an event's thread.
fn top_after(machine: &Checked, event: &Event) -> Option<FrameView> {
    machine.thread(thread_of(event)?)?.top
}
