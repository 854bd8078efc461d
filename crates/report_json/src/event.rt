//! An event of a run.

ghost use Rattle.std.specs.Prelude.{◌≡◌, ◌++◌, OnOk};
ghost use Rattle.json.specs.Tree.{json_tokens, members_tokens};
ghost use Rattle.report_json.specs.Event.{of_device_members, packet_members, place_json};
ghost use Rattle.report_json.specs.Event.{reply_members, reply_name, subject_json};
ghost use Rattle.report_json.specs.Event.{system_cancel_lock_members};

use crate::member::{put_long, put_number, put_text};
use crate::to_json::ToJson;
use json::Writer;
use model::event::{Bug, Lock, OfDevice, Place, Reply, Subject};
use model::status::Status;
use std::alloc::AllocError;

/// The name of the shape of an event, and its edition.
const FORMAT: &str = "pafteis.event/1";

/// The event of a number, from 0, and what the run answered to it.
#[derive(Clone, Copy)]
pub struct Event {
    pub number: u64,
    pub reply: Reply,
}

impl ToJson for Event {
    ghost use Rattle.report_json.specs.Event.{event_json};
    ghost use Rattle.report_json.specs.Nesting.{event_nests};

    ghost json = { λ event. event_json event.number event.reply };

    fn write(&self, out: &mut Writer) -> Result<(), AllocError> {
        out.begin_object()?;
        put_text(out, "format", FORMAT)?;
        put_number(out, "event", self.number)?;
        put_text(out, "reply", reply_name(self.reply))?;
        write_reply(out, self.reply)
    }

    ghost nests = { event_nests };
}

/// The word of a reply.
pub fn reply_name(reply: Reply) -> &'static str
    ensures { result.now ≡ reply_name reply }
{
    match reply {
        Reply::Started(_) => "started",
        Reply::Stepped => "stepped",
        Reply::Finished => "finished",
        Reply::Topped { .. } => "topped",
        Reply::Waited => "waited",
        Reply::Idle => "idle",
        Reply::Refused => "refused",
        Reply::Bug(_) => "bug",
        Reply::Wrong(_) => "wrong",
    }
}

/// Writes what follows the word of a reply, to the end of the object.
///
/// # Errors
///
/// When memory runs out.
pub fn write_reply(out: &mut Writer, reply: Reply) -> Result<(), AllocError>
    ensures before { out.new.before ≡ out.old.before }
    ensures tokens { OnOk result
        (out.new.tokens ≡ out.old.tokens ++ members_tokens (reply_members reply)) }
{
    match reply {
        Reply::Started(packet) => write_started(out, packet),
        Reply::Topped {
            packet,
            status,
            info,
        } => write_topped(out, packet, status, info),
        Reply::Bug(bug) => write_bug(out, bug),
        Reply::Wrong(place) => write_wrong(out, place),
        Reply::Stepped | Reply::Finished | Reply::Waited | Reply::Idle | Reply::Refused => {
            out.end_object()
        }
    }
}

fn write_started(out: &mut Writer, packet: u64) -> Result<(), AllocError>
    ensures before { out.new.before ≡ out.old.before }
    ensures tokens { OnOk result
        (out.new.tokens ≡ out.old.tokens ++ members_tokens (reply_members (Reply.Started packet))) }
{
    put_number(out, "packet", packet)?;
    out.end_object()
}

fn write_topped(
    out: &mut Writer,
    packet: u64,
    status: Status,
    information: u64,
) -> Result<(), AllocError>
    ensures before { out.new.before ≡ out.old.before }
    ensures tokens { OnOk result (out.new.tokens ≡ out.old.tokens
        ++ members_tokens (reply_members (Reply.Topped packet status information))) }
{
    put_number(out, "packet", packet)?;
    put_text(out, "status", status.as_str())?;
    put_long(out, "information", information)?;
    out.end_object()
}

fn write_bug(out: &mut Writer, bug: Bug) -> Result<(), AllocError>
    ensures before { out.new.before ≡ out.old.before }
    ensures tokens { OnOk result
        (out.new.tokens ≡ out.old.tokens ++ members_tokens (reply_members (Reply.Bug bug))) }
{
    put_text(out, "bug_check", bug.check.as_str())?;
    out.key("subject")?;
    write_subject(out, bug.subject)?;
    out.end_object()
}

fn write_wrong(out: &mut Writer, place: Place) -> Result<(), AllocError>
    ensures before { out.new.before ≡ out.old.before }
    ensures tokens { OnOk result
        (out.new.tokens ≡ out.old.tokens ++ members_tokens (reply_members (Reply.Wrong place))) }
{
    out.key("place")?;
    write_place(out, place)?;
    out.end_object()
}

/// Writes what a bug check is about.
///
/// # Errors
///
/// When memory runs out.
pub fn write_subject(out: &mut Writer, subject: Subject) -> Result<(), AllocError>
    ensures before { out.new.before ≡ out.old.before }
    ensures tokens { OnOk result
        (out.new.tokens ≡ out.old.tokens ++ json_tokens (subject_json subject)) }
{
    out.begin_object()?;
    match subject {
        Subject::Packet(packet) => write_packet(out, packet),
        Subject::Lock(Lock::SystemCancel) => write_system_cancel_lock(out),
        Subject::Lock(Lock::Spin(lock)) => write_of_device(out, "spin_lock", "lock", lock),
        Subject::Cell(cell) => write_of_device(out, "paged_cell", "cell", cell),
    }
}

/// Writes the members of a packet, to the end of the object.
fn write_packet(out: &mut Writer, packet: u64) -> Result<(), AllocError>
    ensures before { out.new.before ≡ out.old.before }
    ensures tokens { OnOk result
        (out.new.tokens ≡ out.old.tokens ++ members_tokens (packet_members packet)) }
{
    put_text(out, "kind", "packet")?;
    put_number(out, "packet", packet)?;
    out.end_object()
}

/// Writes the member of the system cancel spin lock, to the end of the object.
fn write_system_cancel_lock(out: &mut Writer) -> Result<(), AllocError>
    ensures before { out.new.before ≡ out.old.before }
    ensures tokens { OnOk result
        (out.new.tokens ≡ out.old.tokens ++ members_tokens system_cancel_lock_members) }
{
    put_text(out, "kind", "system_cancel_lock")?;
    out.end_object()
}

/// Writes the members of a spin lock or a cell of a device, to the end of the object.
fn write_of_device(
    out: &mut Writer,
    kind: &str,
    name: &str,
    thing: OfDevice,
) -> Result<(), AllocError>
    ensures before { out.new.before ≡ out.old.before }
    ensures tokens { OnOk result (out.new.tokens
        ≡ out.old.tokens ++ members_tokens (of_device_members kind.now name.now thing)) }
{
    put_text(out, "kind", kind)?;
    put_number(out, "device", thing.device as u64)?;
    put_number(out, name, thing.number as u64)?;
    out.end_object()
}

/// Writes a place.
fn write_place(out: &mut Writer, place: Place) -> Result<(), AllocError>
    ensures before { out.new.before ≡ out.old.before }
    ensures tokens { OnOk result
        (out.new.tokens ≡ out.old.tokens ++ json_tokens (place_json place)) }
{
    out.begin_object()?;
    put_number(out, "driver", place.driver as u64)?;
    put_number(out, "routine", place.routine as u64)?;
    put_number(out, "position", place.position as u64)?;
    out.end_object()
}
