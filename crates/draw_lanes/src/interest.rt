//! Which events are drawn.

use model::event::Reply;
use model::instr::Instr;
use model::view::{FrameView, LiveView, PacketView};
use tell_changes::Moment;
use tell_uses::acting::Acting;
use tell_uses::computing::is_computing_at;

/// Whether an event is drawn: what begins, ends, moves a packet, marks it, completes it or cancels
/// it, what takes or frees a lock, the first turn of a wait, and what stops the run. Told by the
/// moment before it, its reply, whether its thread waited before, and the thread's top frame after.
pub fn is_of_interest(
    moment: &Moment,
    reply: &Reply,
    waited: bool,
    top: Option<FrameView>,
) -> bool {
    match *reply {
        Reply::Idle => false,
        Reply::Waited => !waited,
        Reply::Stepped => match moment.acting {
            Some(acting) => is_step_of_interest(moment, acting, top),
            None => true,
        },
        Reply::Started(_)
        | Reply::Finished
        | Reply::Topped { .. }
        | Reply::Refused
        | Reply::Bug(_)
        | Reply::Wrong(_) => true,
    }
}

/// Whether a step is drawn that leaves its thread with frames: of a completion that goes on, one
/// that calls a routine.
fn is_step_of_interest(moment: &Moment, acting: Acting, top: Option<FrameView>) -> bool {
    match acting.frame {
        FrameView::Walk(_) => matches!(top, Some(FrameView::Routine { .. })),
        FrameView::Cancel(_) => true,
        FrameView::Routine { .. } => match acting.instruction {
            Some(instr) => is_instruction_of_interest(&instr, moment),
            None => true,
        },
    }
}

/// Whether the step of an instruction is drawn.
fn is_instruction_of_interest(instr: &Instr, moment: &Moment) -> bool {
    if matches!(instr, Instr::IfCancel(_, _)) {
        return is_cancelled(moment);
    }
    !is_computing_at(instr)
}

/// Whether Irp->Cancel of the packet is set that the step is about.
fn is_cancelled(moment: &Moment) -> bool {
    matches!(
        moment.packet,
        Some(PacketView::Live(LiveView { cancel: true, .. }))
    )
}
