//! What is known of registers and locks, in words.

use model::abs::{Abs, Duty, Kind, Settled, Stage};
use verifier_names::{Difference, Names};
use verifier_reasons::is_packet;
use words::Words;

/// Adds what a state says: each register that isn't blank, the locks that are held, what is owed,
/// and the token; or that it says nothing.
pub(crate) fn add_state(words: &mut Words, names: Names<'_, '_>, state: &Abs) {
    let before = words.text.len();
    for (number, kind) in state.kinds.iter().enumerate() {
        if *kind != Kind::Blank {
            add_numbered(words, "  r", number, ": ");
            add_kind(words, names, *kind);
            words.add("\n");
        }
    }
    add_locks(words, state);
    add_owed(words, state);
    if words.text.len() == before {
        words.add("  nothing: each register is blank, and no lock is held\n");
    }
}

/// Adds a number between words.
fn add_numbered(words: &mut Words, before: &str, number: usize, behind: &str) {
    words.add(before);
    words.add_number(number as u64);
    words.add(behind)
}

/// Adds what a register holds.
pub(crate) fn add_kind(words: &mut Words, names: Names<'_, '_>, kind: Kind) {
    words.add(kind_words(kind));
    if let Kind::Queued(queue, _) = kind {
        names.add_queue(words, queue)
    }
}

/// What a register holds, up to the name of a list.
fn kind_words(kind: Kind) -> &'static str {
    match kind {
        Kind::Blank => "blank",
        Kind::Num => "a number",
        Kind::Lower => "the status that the lower driver returned",
        Kind::New => "the packet as it was handed in",
        Kind::Own => "a packet of the routine's own",
        Kind::Queued(_, stage) => stage_words(stage),
        Kind::View => "a packet on its way up, to be looked at",
    }
}

/// What a packet of a list is, up to the name of the list.
fn stage_words(stage: Stage) -> &'static str {
    match stage {
        Stage::Listed => "a packet with no cancel routine set, put into ",
        Stage::Armed => "a packet whose cancel routine was set and may run, put into ",
        Stage::Taken => "a packet whose cancel routine may still be set, taken off ",
        Stage::Cancelling => "the packet that is being cancelled, and may still stand in ",
    }
}

/// Adds the locks that are held, if any is.
fn add_locks(words: &mut Words, state: &Abs) {
    words.add(where_so(state.cancel, "  held: the system cancel spin lock\n"));
    for (number, held) in state.locks.iter().enumerate() {
        if *held {
            add_numbered(words, "  held: l", number, "\n");
        }
    }
}

/// Words where something is so, and else none.
fn where_so(is_so: bool, words: &'static str) -> &'static str {
    if is_so { words } else { "" }
}

/// Adds what is owed, and the token.
fn add_owed(words: &mut Words, state: &Abs) {
    words.add(duty_words(state.duty));
    words.add(settled_words(state.settled));
    words.add(where_so(
        state.token,
        "  the token of the busy device: a packet is to be begun, or the next\n",
    ))
}

/// What a dispatch routine owes to its caller.
pub(crate) fn duty_words(duty: Duty) -> &'static str {
    match duty {
        Duty::Fresh => "  owed: the packet that was handed in, with which nothing was done\n",
        Duty::Pending => "  owed: STATUS_PENDING, since the packet was marked\n",
        Duty::Finished => "  owed: the final status, since the packet was completed unmarked\n",
        Duty::GivenDown => "  owed: what the lower driver returned\n",
        Duty::NoDuty => "",
    }
}

/// What a completion routine still has to do with the mark.
fn settled_words(settled: Settled) -> &'static str {
    match settled {
        Settled::Open => "  owed: a look at Irp->PendingReturned\n",
        Settled::NeedMark => "  owed: a mark, since Irp->PendingReturned was set\n",
        Settled::Settled => "",
    }
}

/// Adds what differs between two states, register by register and lock by lock.
pub(crate) fn add_differences(words: &mut Words, names: Names<'_, '_>, one: &Abs, other: &Abs) {
    words.add("what differs:\n");
    for (number, (first, second)) in one.kinds.iter().zip(other.kinds.iter()).enumerate() {
        if *first != *second {
            add_numbered(words, "  r", number, ": ");
            add_kind(words, names, *first);
            words.add(" on the first path, and on the second ");
            add_kind(words, names, *second);
            words.add("\n");
        }
    }
    add_lock_differences(words, one, other);
    words.add(where_so(one.duty != other.duty, "  what is owed\n"));
    words.add(where_so(
        one.settled != other.settled,
        "  whether the mark was carried up\n",
    ));
    words.add(where_so(one.token != other.token, "  the token of the busy device\n"))
}

/// What differs between two states that do: packets and what is owed for them, or nothing of that.
pub(crate) fn kind_of_difference(one: &Abs, other: &Abs) -> Difference {
    let packets = one.kinds.iter().zip(other.kinds.iter()).any(|(first, second)| {
        *first != *second && (is_packet(*first) || is_packet(*second))
    });
    let owed = one.duty != other.duty || one.settled != other.settled || one.token != other.token;
    if packets || owed {
        Difference::Packets
    } else {
        Difference::Others
    }
}

/// Adds the locks that are held in one of two states alone.
fn add_lock_differences(words: &mut Words, one: &Abs, other: &Abs) {
    words.add(where_so(
        one.cancel != other.cancel,
        "  the system cancel spin lock: held on one path alone\n",
    ));
    for (number, (first, second)) in one.locks.iter().zip(other.locks.iter()).enumerate() {
        if *first != *second {
            add_numbered(words, "  l", number, ": held on one path alone\n");
        }
    }
}
