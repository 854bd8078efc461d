//! Why events are refused, in words.

use crate::moment::Moment;
use model::instr::Instr;
use tell_audit::refusal::Reason;
use tell_uses::acting::Acting;

/// Why an event of a run that goes on was refused, by the moment before it: where nothing else
/// stands against it, what is full.
pub fn refusal_words(moment: &Moment) -> &'static str {
    if let Some(reason) = moment.reason {
        return reason_words(reason);
    }
    let into_list = matches!(
        moment.acting,
        Some(Acting {
            instruction: Some(Instr::Insert(_, _) | Instr::Start(_) | Instr::Next),
            ..
        })
    );
    if into_list {
        "the list is full"
    } else {
        "the thread's stack is full"
    }
}

/// What would have to be otherwise.
fn reason_words(reason: Reason) -> &'static str {
    match reason {
        Reason::NoThread => "there is no such thread",
        Reason::NotIdle => "the thread isn't idle",
        Reason::NoDevice => "there is no such device",
        Reason::NoRoom => "there is no room for another packet",
        Reason::NoLevel => "there is no such level",
        Reason::NotIssued => "no such packet was issued",
        Reason::NoDpc => "the device has no DPC routine",
        Reason::NoStartIo => "the device has no StartIo routine",
    }
}
