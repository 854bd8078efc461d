//! The object of the audit of a run.

ghost use Rattle.std.specs.Prelude.{◌≡◌, ◌++◌, ◌∷◌, OnOk, codes};
ghost use Rattle.json.specs.Json.{array};
ghost use Rattle.json.specs.Token.{key};
ghost use Rattle.json.specs.Tree.{items_tokens, json_tokens};
ghost use Rattle.report_json.specs.Served.{numbers_json};
ghost use Rattle.tell_json.specs.Audit.{left_json, left_lock_json, use_json, uses_json};

use json::Writer;
use model::event::Subject;
use report_json::event::write_subject;
use report_json::member::{put_number, put_text};
use report_json::served::write_threads;
use report_json::to_json::ToJson;
use std::alloc::AllocError;
use tell_audit::findings::Findings;
use tell_audit::left::LeftLock;
use tell_uses::uses::LocationUse;

/// The name of the shape of an audit, and its edition.
const FORMAT: &str = "pafteis.audit/1";

/// What the audit of a run found.
#[derive(Clone, Copy)]
pub struct ToldAudit<'a> {
    pub found: &'a Findings,
}

impl ToJson for ToldAudit<'_> {
    ghost use Rattle.tell_json.specs.Audit.{audit_json};
    ghost use Rattle.tell_json.specs.Nesting.{audit_nests};

    ghost json = { λ told. audit_json told.found.now.lost.items told.found.now.left.items
        told.found.now.ringed.items told.found.now.missed.items
        told.found.now.disagreeing.items };

    fn write(&self, out: &mut Writer) -> Result<(), AllocError> {
        out.begin_object()?;
        put_text(out, "format", FORMAT)?;
        put_packets(out, "lost", self.found.lost.as_slice())?;
        put_left(out, self.found.left.as_slice())?;
        put_ringed(out, self.found.ringed.as_slice())?;
        put_packets(out, "to_cancel", self.found.missed.as_slice())?;
        put_uses(out, self.found.disagreeing.as_slice())?;
        out.end_object()
    }

    ghost nests = { λ told. audit_nests told.found.now.lost.items told.found.now.left.items
        told.found.now.ringed.items told.found.now.missed.items
        told.found.now.disagreeing.items };
}

/// Adds a member that is the numbers of packets.
fn put_packets(out: &mut Writer, name: &str, packets: &[u64]) -> Result<(), AllocError>
    ensures before { out.new.before ≡ out.old.before }
    ensures tokens { OnOk result (out.new.tokens
        ≡ out.old.tokens ++ key name.now ∷ json_tokens (array (numbers_json packets.now))) }
{
    out.key(name)?;
    out.begin_array()?;
    write_packets(out, packets)
}

/// Writes the numbers of packets, to the end of the array.
fn write_packets(out: &mut Writer, packets: &[u64]) -> Result<(), AllocError>
    ensures before { out.new.before ≡ out.old.before }
    ensures tokens { OnOk result
        (out.new.tokens ≡ out.old.tokens ++ items_tokens (numbers_json packets.now)) }
{
    for packet in packets {
        out.u64(*packet)?;
    }
    out.end_array()
}

/// Adds the threads that wait in a ring.
fn put_ringed(out: &mut Writer, threads: &[u8]) -> Result<(), AllocError>
    ensures before { out.new.before ≡ out.old.before }
    ensures tokens { OnOk result
        (out.new.tokens ≡ out.old.tokens
        ++ key (codes "ring") ∷ json_tokens (array (numbers_json threads.now))) }
{
    out.key("ring")?;
    out.begin_array()?;
    write_threads(out, threads)
}

/// Adds the locks that are left behind.
fn put_left(out: &mut Writer, left: &[LeftLock]) -> Result<(), AllocError>
    ensures before { out.new.before ≡ out.old.before }
    ensures tokens { OnOk result
        (out.new.tokens ≡ out.old.tokens
        ++ key (codes "locks_left") ∷ json_tokens (array (left_json left.now))) }
{
    out.key("locks_left")?;
    out.begin_array()?;
    write_left(out, left)
}

/// Writes locks that are left behind, to the end of the array.
fn write_left(out: &mut Writer, left: &[LeftLock]) -> Result<(), AllocError>
    ensures before { out.new.before ≡ out.old.before }
    ensures tokens { OnOk result
        (out.new.tokens ≡ out.old.tokens ++ items_tokens (left_json left.now)) }
{
    for lock in left {
        write_left_lock(out, lock)?;
    }
    out.end_array()
}

/// Writes a lock that is left behind.
fn write_left_lock(out: &mut Writer, left: &LeftLock) -> Result<(), AllocError>
    ensures before { out.new.before ≡ out.old.before }
    ensures tokens { OnOk result
        (out.new.tokens ≡ out.old.tokens ++ json_tokens (left_lock_json left.now)) }
{
    out.begin_object()?;
    put_number(out, "thread", left.thread as u64)?;
    out.key("lock")?;
    write_subject(out, Subject::Lock(left.lock))?;
    out.end_object()
}

/// Adds uses that disagree.
fn put_uses(out: &mut Writer, uses: &[LocationUse]) -> Result<(), AllocError>
    ensures before { out.new.before ≡ out.old.before }
    ensures tokens { OnOk result
        (out.new.tokens ≡ out.old.tokens
        ++ key (codes "disagreeing") ∷ json_tokens (array (uses_json uses.now))) }
{
    out.key("disagreeing")?;
    out.begin_array()?;
    write_uses(out, uses)
}

/// Writes uses that disagree, to the end of the array.
fn write_uses(out: &mut Writer, uses: &[LocationUse]) -> Result<(), AllocError>
    ensures before { out.new.before ≡ out.old.before }
    ensures tokens { OnOk result
        (out.new.tokens ≡ out.old.tokens ++ items_tokens (uses_json uses.now)) }
{
    for location_use in uses {
        write_use(out, location_use)?;
    }
    out.end_array()
}

/// Writes a use of a stack location.
fn write_use(out: &mut Writer, location_use: &LocationUse) -> Result<(), AllocError>
    ensures before { out.new.before ≡ out.old.before }
    ensures tokens { OnOk result
        (out.new.tokens ≡ out.old.tokens ++ json_tokens (use_json location_use.now)) }
{
    out.begin_object()?;
    put_number(out, "packet", location_use.packet())?;
    put_number(out, "use", location_use.number())?;
    out.end_object()
}
