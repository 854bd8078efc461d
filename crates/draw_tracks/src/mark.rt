//! One trace event.

use json::Writer;
use std::alloc::{AllocError, Global};
use std::mem;

/// The process of all tracks.
const PROCESS: u64 = 1;

/// What a trace event is.
#[derive(Clone, Copy)]
pub(crate) enum Kind<'a> {
    /// A span of a track begins.
    Begins,
    /// The last span of a track that began ends.
    Ends,
    /// Something happens: where, and what it changes.
    Happens { place: &'a str, change: &'a str },
    /// So many there are of something.
    Counts(u64),
    /// A packet is in a span for the first time.
    Leaves(u64),
    /// It is in another one.
    Goes(u64),
    /// It tops out.
    Arrives(u64),
    /// What a track is called.
    Called(&'a str),
    /// Where a track stands among the others.
    Stands(u64),
}

/// A trace event: what it is called, when it is, and its track.
#[derive(Clone, Copy)]
pub(crate) struct Mark<'a> {
    pub(crate) kind: Kind<'a>,
    pub(crate) name: &'a str,
    pub(crate) at: u64,
    pub(crate) track: u64,
}

impl<'a> Mark<'a> {
    /// What a track is called.
    pub(crate) fn called(track: u64, name: &'a str) -> Mark<'a> {
        Mark {
            kind: Kind::Called(name),
            name: "thread_name",
            at: 0,
            track,
        }
    }

    /// Where a track stands.
    pub(crate) fn stands(track: u64, place: u64) -> Mark<'a> {
        Mark {
            kind: Kind::Stands(place),
            name: "thread_sort_index",
            at: 0,
            track,
        }
    }
}

/// The text of trace events.
#[derive(Drop)]
pub(crate) struct Marks {
    alloc: Global,
    text: Vec<u8>,
    /// Whether one stands there.
    begun: bool,
}

impl Marks {
    /// That of none.
    pub(crate) fn begin(alloc: Global) -> Result<Marks, AllocError> {
        let mut text = Vec::new(alloc);
        text.extend_from_slice(b"{\"displayTimeUnit\":\"ns\",\"traceEvents\":[")?;
        Ok(Marks {
            alloc,
            text,
            begun: false,
        })
    }

    /// Where its memory comes from.
    pub(crate) fn alloc(&self) -> Global {
        self.alloc
    }

    /// Adds one, on a line of its own.
    pub(crate) fn add(&mut self, mark: Mark<'_>) -> Result<(), AllocError> {
        let before: &[u8] = if self.begun { b",\n" } else { b"\n" };
        self.text.extend_from_slice(before)?;
        self.begun = true;
        let text = mem::replace(&mut self.text, Vec::new(self.alloc));
        let mut out = Writer::new(text);
        let written = write_mark(&mut out, mark);
        self.text = out.into_inner();
        written
    }

    /// The whole text.
    pub(crate) fn end(self) -> Result<Vec<u8>, AllocError> {
        let mut text = self.text;
        text.extend_from_slice(b"\n]}\n")?;
        Ok(text)
    }
}

/// Writes a trace event as an object.
fn write_mark(out: &mut Writer, mark: Mark<'_>) -> Result<(), AllocError> {
    out.begin_object()?;
    put_text(out, "ph", phase_of(mark.kind))?;
    put_text(out, "name", mark.name)?;
    put_number(out, "ts", mark.at)?;
    put_number(out, "pid", PROCESS)?;
    put_number(out, "tid", mark.track)?;
    write_rest(out, mark.kind)?;
    out.end_object()
}

/// The letter of a phase.
fn phase_of(kind: Kind<'_>) -> &'static str {
    match kind {
        Kind::Begins => "B",
        Kind::Ends => "E",
        Kind::Happens { .. } => "i",
        Kind::Counts(_) => "C",
        Kind::Leaves(_) => "s",
        Kind::Goes(_) => "t",
        Kind::Arrives(_) => "f",
        Kind::Called(_) | Kind::Stands(_) => "M",
    }
}

/// Writes the members that only some have.
fn write_rest(out: &mut Writer, kind: Kind<'_>) -> Result<(), AllocError> {
    match kind {
        Kind::Begins | Kind::Ends => Ok(()),
        Kind::Happens { place, change } => {
            put_text(out, "s", "t")?;
            out.key("args")?;
            out.begin_object()?;
            put_text(out, "place", place)?;
            put_text(out, "change", change)?;
            out.end_object()
        }
        Kind::Counts(count) => put_argument(out, "packets", count),
        Kind::Leaves(packet) | Kind::Goes(packet) => put_flow(out, packet),
        Kind::Arrives(packet) => {
            put_text(out, "bp", "e")?;
            put_flow(out, packet)
        }
        Kind::Called(name) => {
            out.key("args")?;
            out.begin_object()?;
            put_text(out, "name", name)?;
            out.end_object()
        }
        Kind::Stands(place) => put_argument(out, "sort_index", place),
    }
}

/// Adds what ties the parts of a packet's flow.
fn put_flow(out: &mut Writer, packet: u64) -> Result<(), AllocError> {
    put_text(out, "cat", "packet")?;
    put_number(out, "id", packet)
}

/// Adds one number as the arguments.
fn put_argument(out: &mut Writer, name: &str, value: u64) -> Result<(), AllocError> {
    out.key("args")?;
    out.begin_object()?;
    put_number(out, name, value)?;
    out.end_object()
}

fn put_text(out: &mut Writer, name: &str, text: &str) -> Result<(), AllocError> {
    out.key(name)?;
    out.string(text)
}

fn put_number(out: &mut Writer, name: &str, value: u64) -> Result<(), AllocError> {
    out.key(name)?;
    out.u64(value)
}
