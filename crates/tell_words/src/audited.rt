//! What the audit of a run says, in words.

ghost use Rattle.std.specs.Prelude.{◌≡◌, [], OnOk};
ghost use Rattle.tell_words.specs.Noted.{noted};

use crate::disagreement::{Place, add_note, add_place, opened_place};
use crate::line::Happened;
use crate::places::{add_armer, add_holders, add_sites};
use checked::Checked;
use irp::Packet;
use model::event::Reply;
use model::history::TopOut;
use std::alloc::{AllocError, Global};
use std::marker::Model;
use tell_audit::findings::Findings;
use tell_changes::{add_ringed, refusal_words};
use tell_holders::Rights;
use tell_names::{Book, add_lock, add_number, add_packet, add_top_out};
use tell_uses::acts::UseStep;
use tell_uses::ledger::Ledger;
use words::Words;

/// An event that was refused.
#[derive(Clone, Copy)]
struct RefusedEvent {
    number: u64,
    why: &'static str,
}

/// What is noted of a run while it goes: packets that topped out, and events that were refused.
/// Contracts see the numbers of the latter, in order.
#[derive(Drop)]
pub(crate) struct Audited {
    topped: Vec<TopOut>,
    refused: Vec<RefusedEvent>,
    /// The locations of which uses were opened, by the numbers of the uses.
    opened: Vec<Option<Place>>,
}

impl Model for Audited {
    ghost use Rattle.std.specs.Prelude.{List, ℕ};
    ghost use Rattle.tell_words.specs.Noted.{numbers};

    ghost Value = { List ℕ };

    ghost view = { λ a. numbers a.refused.items };
}

impl Audited {
    /// Of a run without events.
    pub(crate) fn new(alloc: Global) -> Audited
        ensures { result ≡ [] }
    {
        Audited {
            topped: Vec::new(alloc),
            refused: Vec::new(alloc),
            opened: Vec::new(alloc),
        }
    }

    /// Notes the location of which the next event opens a use, if it does.
    fn note_opened(&mut self, happened: &Happened, machine: &Checked) -> Result<(), AllocError>
        ensures { OnOk result (self.new ≡ self.old) }
    {
        if matches!(happened.step, UseStep::Issue(_) | UseStep::Call(_))
            && !matches!(happened.reply, Reply::Waited | Reply::Idle | Reply::Refused)
        {
            self.opened.push(opened_place(happened, machine))?;
        }
        Ok(())
    }

    /// Notes the event of a number.
    pub(crate) fn note(
        &mut self,
        number: u64,
        happened: &Happened,
        machine: &Checked,
    ) -> Result<(), AllocError>
        ensures { OnOk result (self.new ≡ noted self.old number happened.now.reply) }
    {
        self.note_opened(happened, machine)?;
        match happened.reply {
            Reply::Topped {
                packet,
                status,
                info,
            } => self.topped.push(TopOut {
                packet,
                status,
                info,
            })?,
            Reply::Refused => self.refused.push(RefusedEvent {
                number,
                why: refusal_words(&happened.moment),
            })?,
            Reply::Started(_)
            | Reply::Stepped
            | Reply::Finished
            | Reply::Waited
            | Reply::Idle
            | Reply::Bug(_)
            | Reply::Wrong(_) => {}
        }
        Ok(())
    }
}

/// What a run has left: the machine and the ledger after it, what was found there, and the rights
/// to packets, where the set is accepted.
#[derive(Clone, Copy)]
pub(crate) struct Left<'a> {
    pub(crate) machine: &'a Checked,
    pub(crate) found: &'a Findings,
    pub(crate) ledger: &'a Ledger,
    pub(crate) rights: Option<&'a Rights>,
}

/// Adds the audit of a run: what topped out, what lives and where it is named (who holds it, where
/// rights are known), what was found amiss, and the events that were refused.
pub(crate) fn add_audit(
    alloc: Global,
    words: &mut Words,
    book: &Book<'_>,
    audited: &Audited,
    left: &Left<'_>,
) {
    let machine = left.machine;
    let found = left.found;
    add_topped(words, audited);
    for number in 0..machine.shared().issued() {
        if let Some(packet) = machine.shared().live_packet(number) {
            add_live(alloc, words, book, machine, packet, left.rights);
        }
    }
    add_missed(words, book, machine, found);
    add_findings(words, book, machine, found);
    add_disagreeing(words, book, audited, found, left.ledger);
    add_refused(words, audited);
    words.add(if machine.stopped() {
        "the run was stopped by a bug check or a wrong operand\n"
    } else if found.any() {
        ""
    } else {
        "nothing is amiss\n"
    })
}

/// Adds the packets that topped out, in order.
fn add_topped(words: &mut Words, audited: &Audited) {
    for top in audited.topped.iter() {
        add_top_out(words, top.packet, " topped out with ", top.status, top.info);
        words.add("\n");
    }
}

/// Adds the packets that are still to be cancelled.
fn add_missed(words: &mut Words, book: &Book<'_>, machine: &Checked, found: &Findings) {
    for number in found.missed.iter() {
        add_packet(
            words,
            *number,
            " is still to be cancelled: Irp->Cancel and its cancel routine",
        );
        let packet = machine.shared().live_packet(*number);
        if let Some(armer) = packet.and_then(|packet| packet.armer()) {
            words.add(" of ");
            add_armer(words, book, machine, armer);
        }
        words.add(" are set, and no thread is in IoCancelIrp for it\n");
    }
}

/// Adds what was found amiss.
fn add_findings(words: &mut Words, book: &Book<'_>, machine: &Checked, found: &Findings) {
    for packet in found.lost.iter() {
        add_packet(words, *packet, " is lost: no place names it\n");
    }
    add_left(words, book, found);
    add_ringed(words, book, machine, found.ringed.as_slice())
}

/// Adds the locks that are left behind.
fn add_left(words: &mut Words, book: &Book<'_>, found: &Findings) {
    for lock in found.left.iter() {
        add_lock(words, book, lock.lock);
        words.add(" is left behind: thread ");
        add_number(words, u64::from(lock.thread));
        words.add(" owns it and is idle\n");
    }
}

/// Adds the uses of stack locations that were returned from otherwise than they were marked.
fn add_disagreeing(
    words: &mut Words,
    book: &Book<'_>,
    audited: &Audited,
    found: &Findings,
    ledger: &Ledger,
) {
    for location_use in found.disagreeing.iter() {
        add_packet(words, location_use.packet(), "");
        if let Some(Some(place)) = audited.opened.get(location_use.number() as usize) {
            add_place(words, book, *place);
        }
        if let Some(note) = ledger.note_of(*location_use) {
            add_note(words, &note);
        }
        words.add("\n");
    }
}

/// Adds the events that were refused, and why.
fn add_refused(words: &mut Words, audited: &Audited) {
    for refused in audited.refused.iter() {
        words.add("event ");
        add_number(words, refused.number);
        words.add(" was refused: ");
        words.add(refused.why);
        words.add("\n");
    }
}

/// Adds a live packet: its locations with their marks, and the places that name it; which of them
/// holds it by right, where that is known.
fn add_live(
    alloc: Global,
    words: &mut Words,
    book: &Book<'_>,
    machine: &Checked,
    packet: &Packet,
    rights: Option<&Rights>,
) {
    add_locations(words, book, packet);
    match rights {
        Some(rights) => add_holders(alloc, words, book, machine, rights, packet.number()),
        None => add_sites(alloc, words, book, machine, packet.number()),
    }
    words.add("\n")
}

/// Adds the locations of a live packet, with their marks.
fn add_locations(words: &mut Words, book: &Book<'_>, packet: &Packet) {
    add_packet(words, packet.number(), " is live at location ");
    add_number(words, u64::from(packet.depth()));
    for place in 0..packet.depth() {
        if let Some(location) = packet.location(place as usize) {
            words.add("; location ");
            add_number(words, u64::from((place as u16).saturating_add(1)));
            words.add(" of ");
            book.add_device(words, location.device());
            words.add(if location.is_marked() {
                " is marked"
            } else {
                " is unmarked"
            });
        }
    }
}
