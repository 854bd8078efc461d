//! How an entry of a history is stored.

ghost use Rattle.std.specs.Prelude.{◌≡◌, IfSome};
ghost use Rattle.hostcore.specs.Stored.{event_as, reply_as};
ghost use Rattle.laws_runs.specs.NeverStops.{LetsGoOn};
ghost use Rattle.model.specs.Run.{thread_of};

use model::event::{Event, Reply};
use model::history::{Entry, Name};
use model::status::{Major, Status};
use std::marker::Model;

/// What happened, but for the thread and the number that an event has.
#[derive(Clone, Copy)]
pub(crate) enum Happened {
    Issue { device: u8, major: Major },
    Cancel { level: u8 },
    Interrupt { device: u8 },
    Dpc { device: u8 },
    StartIo { device: u8 },
    Step,
}

/// What was answered, but for the packet and the information that a reply has. No run of an
/// accepted set answers otherwise.
#[derive(Clone, Copy)]
pub(crate) enum Answer {
    Started,
    Stepped,
    Finished,
    Topped(Status),
    Waited,
    Idle,
    Refused,
}

/// An event as it is stored.
struct EventParts {
    happened: Happened,
    /// The argument of a request, or the packet that is cancelled.
    number: u64,
}

/// A reply as it is stored.
struct ReplyParts {
    answer: Answer,
    /// The packet that was started or has topped out.
    packet: u64,
    info: u64,
}

/// An entry of a history, in little more than half of the room that its parts take by themselves:
/// what they have in common, as the thread, it has once. Contracts see the entry.
#[derive(Drop)]
pub struct Stored {
    thread: u8,
    happened: Happened,
    answer: Answer,
    /// The submitter of the command that it performs, if it performs one.
    submitter: Option<u32>,
    count: u64,
    number: u64,
    packet: u64,
    info: u64,
}

impl Model for Stored {
    ghost use Rattle.model.specs.declared.history.Entry.{Entry};
    ghost use Rattle.hostcore.specs.Stored.{event_as, name_as, reply_as};

    ghost Value = { Entry };

    ghost view = { λ s. record {
      thread = s.thread;
      event = event_as s.happened s.thread s.number;
      reply = reply_as s.answer s.packet s.info;
      name = name_as s.submitter s.count;
    } };
}

/// An event on its thread.
#[inline(always)]
fn split_event(event: Event, _thread: u8) -> EventParts
    requires { IfSome (thread_of event) (λ t. t ≡ _thread) }
    ensures { event_as result.happened _thread result.number ≡ event }
{
    let (happened, number) = match event {
        Event::Issue {
            thread: _,
            device,
            major,
            argument,
        } => (Happened::Issue { device, major }, argument),
        Event::Cancel {
            thread: _,
            packet,
            level,
        } => (Happened::Cancel { level }, packet),
        Event::Interrupt { device } => (Happened::Interrupt { device }, 0),
        Event::Dpc { thread: _, device } => (Happened::Dpc { device }, 0),
        Event::StartIo { thread: _, device } => (Happened::StartIo { device }, 0),
        Event::Step { thread: _ } => (Happened::Step, 0),
    };
    EventParts { happened, number }
}

/// A reply with which a run goes on.
#[inline(always)]
fn split_reply(reply: Reply) -> ReplyParts
    requires { LetsGoOn reply }
    ensures { reply_as result.answer result.packet result.info ≡ reply }
{
    let (answer, packet, info) = match reply {
        Reply::Started(packet) => (Answer::Started, packet, 0),
        Reply::Topped {
            packet,
            status,
            info,
        } => (Answer::Topped(status), packet, info),
        Reply::Stepped => (Answer::Stepped, 0, 0),
        Reply::Finished => (Answer::Finished, 0, 0),
        Reply::Waited => (Answer::Waited, 0, 0),
        Reply::Idle => (Answer::Idle, 0, 0),
        Reply::Refused => (Answer::Refused, 0, 0),
        Reply::Bug(_) | Reply::Wrong(_) => unreachable!(),
    };
    ReplyParts {
        answer,
        packet,
        info,
    }
}

impl Stored {
    /// An entry of a run that goes on, whose event is about its thread or about none.
    #[inline(always)]
    pub(crate) fn of(entry: Entry) -> Stored
        requires own { IfSome (thread_of entry.event) (λ t. t ≡ entry.thread) }
        requires goes_on { LetsGoOn entry.reply }
        ensures { result ≡ entry }
    {
        let EventParts { happened, number } = split_event(entry.event, entry.thread);
        let ReplyParts {
            answer,
            packet,
            info,
        } = split_reply(entry.reply);
        let (submitter, count) = match entry.name {
            Some(name) => (Some(name.submitter), name.count),
            None => (None, 0),
        };
        Stored {
            thread: entry.thread,
            happened,
            answer,
            submitter,
            count,
            number,
            packet,
            info,
        }
    }

    /// Its event.
    pub fn event(&self) -> Event
        ensures { result ≡ self.now.event }
    {
        let thread = self.thread;
        match self.happened {
            Happened::Issue { device, major } => Event::Issue {
                thread,
                device,
                major,
                argument: self.number,
            },
            Happened::Cancel { level } => Event::Cancel {
                thread,
                packet: self.number,
                level,
            },
            Happened::Interrupt { device } => Event::Interrupt { device },
            Happened::Dpc { device } => Event::Dpc { thread, device },
            Happened::StartIo { device } => Event::StartIo { thread, device },
            Happened::Step => Event::Step { thread },
        }
    }

    /// Its reply.
    pub fn reply(&self) -> Reply
        ensures { result ≡ self.now.reply }
    {
        let packet = self.packet;
        match self.answer {
            Answer::Started => Reply::Started(packet),
            Answer::Topped(status) => Reply::Topped {
                packet,
                status,
                info: self.info,
            },
            Answer::Stepped => Reply::Stepped,
            Answer::Finished => Reply::Finished,
            Answer::Waited => Reply::Waited,
            Answer::Idle => Reply::Idle,
            Answer::Refused => Reply::Refused,
        }
    }

    /// The name of the command that it performs, if it performs one.
    pub fn name(&self) -> Option<Name>
        ensures { result ≡ self.now.name }
    {
        let submitter = self.submitter?;
        Some(Name {
            submitter,
            count: self.count,
        })
    }

    /// The entry.
    pub fn entry(&self) -> Entry
        ensures { result ≡ self.now }
    {
        Entry {
            thread: self.thread,
            event: self.event(),
            reply: self.reply(),
            name: self.name(),
        }
    }
}
