//! The stored history of a core.

ghost use Rattle.std.specs.Prelude.{◌≡◌, ◌≤◌, ◌<◌, ◌+◌, ◌++◌, ◌∷◌, [], false, length, nat_eq};
ghost use Rattle.std.specs.Prelude.{option_map, IfOk, IfSome};
ghost use Rattle.hostcore.specs.Noted.{get, noted, room};
ghost use Rattle.model.specs.declared.limits.TheConstants.{MAX_HISTORY};
ghost use Rattle.model.specs.History.{entry_named, is_name, outcome_named, packet_named};
ghost use Rattle.model.specs.History.{request_started};
ghost use Rattle.model.specs.Run.{thread_of};
ghost use Rattle.laws_runs.specs.NeverStops.{LetsGoOn};
ghost use Rattle.hostcore.specs.Indexed.{IsPlaceOf, Notes, told_top};

use crate::Index;
use crate::stored::Stored;
use model::event::{Event, Reply};
use model::history::{Entry, Name, Outcome, TopOut};
use model::limits::MAX_ISSUED;
use std::alloc::{AllocError, Global};
use std::marker::Model;

/// The entries of a history, with room for all that it may have, and where to find them: the place
/// of the first entry of each name, and how each packet topped out.
#[derive(Drop)]
pub struct Log {
    most: usize,
    entries: Vec<Stored>,
    places: Index<Name, usize>,
    tops: Index<u64, TopOut>,
}

impl Model for Log {
    ghost use Rattle.std.specs.Prelude.{◌≡◌, ◌≤◌, length};
    ghost use Rattle.std.specs.Vec.{vec_capacity};
    ghost use Rattle.hostcore.specs.Noted.{noted, room};
    ghost use Rattle.hostcore.specs.Core.{Log as LogOf};
    ghost use Rattle.hostcore.specs.Indexed.{IsIndexed};

    ghost Value = { LogOf };

    ghost view = { λ l. record { most = l.most; entries = l.entries.items } };

    ghost invariant = { λ l. (length l.entries.items ≤ l.most)
        × (l.most ≤ vec_capacity l.entries)
        × (room l.places ≡ l.most) × (length (noted l.places) ≤ length l.entries.items)
        × (room l.tops ≡ l.most) × (length (noted l.tops) ≤ length l.entries.items)
        × IsIndexed l.entries.items l.places l.tops };
}

/// The packet that an entry started, if it is a request's.
fn request_started(entry: &Entry) -> Option<u64>
    ensures { result ≡ request_started entry.now }
{
    match (entry.event, entry.reply) {
        (Event::Issue { .. }, Reply::Started(packet)) => Some(packet),
        _ => None,
    }
}

/// The packet that topped out, if the reply says that one did.
fn told_top(reply: &Reply) -> Option<TopOut>
    ensures { result ≡ told_top reply.now }
{
    match *reply {
        Reply::Topped {
            packet,
            status,
            info,
        } => Some(TopOut {
            packet,
            status,
            info,
        }),
        _ => None,
    }
}

/// Notes the place of an entry that has a name.
#[inline(always)]
fn note_name(places: &mut Index<Name, usize>, name: Option<Name>, place: usize)
    requires room { length (noted places.old) < room places.old }
    ensures noted { Notes is_name places.old places.new (option_map (λ name. (name, place)) name) }
    ensures longer { length (noted places.new) ≤ length (noted places.old) + 1 }
    ensures room { room places.new ≡ room places.old }
{
    if let Some(name) = name {
        places.note(name, place);
    }
}

/// Notes how a packet topped out, if the reply says that one did.
#[inline(always)]
fn note_top(tops: &mut Index<u64, TopOut>, reply: &Reply)
    requires room { length (noted tops.old) < room tops.old }
    ensures noted { Notes nat_eq tops.old tops.new
        (option_map (λ top. (top.packet, top)) (told_top reply.now)) }
    ensures longer { length (noted tops.new) ≤ length (noted tops.old) + 1 }
    ensures room { room tops.new ≡ room tops.old }
{
    if let Some(top) = told_top(reply) {
        tops.note(top.packet, top);
    }
}

impl Log {
    /// An empty history that may have so many entries. An error where memory for all of them is
    /// refused; no other call needs any.
    pub fn new(alloc: Global, most: usize) -> Result<Log, AllocError>
        requires short { most ≤ MAX_HISTORY }
        ensures { IfOk result (λ log. log ≡ record { most = most; entries = [] }) }
    {
        Ok(Log {
            most,
            entries: Vec::with_capacity(alloc, most)?,
            places: Index::with_room(alloc, most)?,
            tops: Index::with_room(alloc, most)?,
        })
    }

    /// The entries in their order.
    pub fn entries(&self) -> &[Stored]
        ensures { result.now ≡ self.now.entries }
    {
        self.entries.as_slice()
    }

    /// Whether it has all entries that it may have.
    pub fn is_full(&self) -> bool
        ensures { result ≡ nat_eq (length self.now.entries) self.now.most }
    {
        self.entries.len() == self.most
    }

    /// Appends an entry of a run that goes on, whose event is about its thread or about none.
    #[inline(always)]
    pub fn append(&mut self, entry: Entry)
        requires room { nat_eq (length self.old.entries) self.old.most ≡ false }
        requires own { IfSome (thread_of entry.event) (λ t. t ≡ entry.thread) }
        requires goes_on { LetsGoOn entry.reply }
        ensures { self.new ≡ record self.old { entries = self.old.entries ++ entry ∷ [] } }
    {
        note_name(&mut self.places, entry.name, self.entries.len());
        note_top(&mut self.tops, &entry.reply);
        self.entries.push_reserved(Stored::of(entry));
    }

    /// The place of the first entry with a name.
    fn place_of(&self, name: Name) -> Option<usize>
        ensures { IsPlaceOf self.now.entries name result }
    {
        self.places.get(name)
    }

    /// The first entry with a name.
    pub fn named(&self, name: Name) -> Option<Entry>
        ensures { result ≡ entry_named self.now.entries name }
    {
        match self.place_of(name) {
            Some(place) => self.entries.get(place).map(|stored| stored.entry()),
            None => None,
        }
    }

    /// The packet of the request of a name; where it started none, a number that no packet has.
    pub fn packet_named(&self, name: Name) -> u64
        ensures { result ≡ packet_named self.now.entries name }
    {
        let started = self.named(name).and_then(|entry| request_started(&entry));
        started.unwrap_or(MAX_ISSUED)
    }

    /// What came of the command of a name; none where it has no entry, or its request's packet has
    /// not topped out.
    pub fn outcome(&self, name: Name) -> Option<Outcome>
        ensures { result ≡ outcome_named self.now.entries name }
    {
        let entry = self.named(name)?;
        let reply = entry.reply;
        match request_started(&entry) {
            Some(packet) => {
                let topped = Some(self.tops.get(packet)?);
                Some(Outcome { reply, topped })
            }
            None => Some(Outcome {
                reply,
                topped: None,
            }),
        }
    }
}
