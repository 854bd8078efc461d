//! Schedules as texts, read back before they are told.

ghost use Rattle.std.specs.Prelude.{◌≡◌, ◌↔◌, ◌≤◌, ◌<◌, ◌+◌, ◌^◌, ◌++◌, ◌∷◌, IfNone, IfOk, IfSome};
ghost use Rattle.std.specs.Prelude.{IsTrue, OnOk, false, slice_get, true};
ghost use Rattle.interleave.specs.Listing.{Lists};
ghost use Rattle.interleave_texts.specs.Listed.{IsUnlisted, event_line, event_lines, goes_on};
ghost use Rattle.interleave_texts.specs.Listed.{is_call, schedule_text};

use crate::appending::{add, add_numbered};
use crate::event_words::{add_event, goes_on};
use crate::reading::events_of;
use interleave::parse::parse_schedule;
use interleave::schedule::ScheduleKind;
use model::event::Event;
use model::status::Major;
use std::alloc::{AllocError, Global};

/// A text that lists so many threads and these events. None where what was written, read back,
/// lists others.
///
/// # Errors
///
/// When memory runs out.
pub fn listing(alloc: Global, threads: u8, events: &[Event]) -> Result<Option<Vec<u8>>, AllocError>
    ensures listed { IfOk result (λ text. IfSome text (λ text. Lists text.items
        (record { threads = threads; events = events.now }))) }
    ensures unlisted { IfOk result (λ text. IfNone text
        (IsUnlisted (record { threads = threads; events = events.now }))) }
{
    let text = written(alloc, threads, events)?;
    if lists(alloc, text.as_slice(), threads, events)? {
        return Ok(Some(text));
    }
    Ok(None)
}

/// The text of so many threads and these events.
fn written(alloc: Global, threads: u8, events: &[Event]) -> Result<Vec<u8>, AllocError>
    ensures { IfOk result (λ text. text.items
        ≡ schedule_text (record { threads = threads; events = events.now })) }
{
    let mut text = Vec::new(alloc);
    add_numbered(&mut text, b"threads ", u64::from(threads), b"\n")?;
    add_lines(&mut text, events)?;
    Ok(text)
}

/// Adds the lines of events. Steps of a thread that come one after another stand on one line.
fn add_lines(text: &mut Vec<u8>, events: &[Event]) -> Result<(), AllocError>
    ensures { OnOk result (text.new.items ≡ text.old.items ++ event_lines 0 events.now) }
{
    let mut times: u64 = 0;
    for place in 0..events.len() {
        times = add_one(text, &events[place], times, &events[place + 1..])?;
    }
    Ok(())
}

/// Adds the line of an event that is on it already so many times, unless what comes later goes on
/// with it. Answers how many times what comes later is on its line then.
fn add_one(
    text: &mut Vec<u8>,
    event: &Event,
    times: u64,
    later: &[Event],
) -> Result<u64, AllocError>
    requires { times + 1 < 2 ^ 64 }
    ensures lines { IfOk result (λ next. text.new.items ++ event_lines next later.now
        ≡ text.old.items ++ event_lines times (event.now ∷ later.now)) }
    ensures few { IfOk result (λ next. next ≤ times + 1) }
{
    if goes_on_in(event, later) {
        return Ok(times + 1);
    }
    add_line(text, event, times + 1)?;
    Ok(0)
}

/// Whether an event and the first of those that come later are steps of one thread.
fn goes_on_in(event: &Event, later: &[Event]) -> bool
    ensures { result ≡ goes_on event.now (slice_get later.now 0) }
{
    goes_on(event, later.first())
}

/// Adds the line of an event that happens so many times in a row.
fn add_line(text: &mut Vec<u8>, event: &Event, times: u64) -> Result<(), AllocError>
    ensures { OnOk result (text.new.items ≡ text.old.items ++ event_line event.now times) }
{
    add_event(text, event, times)?;
    add(text, b"\n")
}

/// Whether a text, read back, lists so many threads and these events.
fn lists(alloc: Global, text: &[u8], threads: u8, events: &[Event]) -> Result<bool, AllocError>
    ensures { IfOk result (λ yes. IsTrue yes ↔ Lists text.now
        (record { threads = threads; events = events.now })) }
{
    match parse_schedule(alloc, text) {
        Ok(schedule) => {
            let read = events_of(alloc, &schedule.events)?;
            Ok(schedule.threads == threads && are_same(read.as_slice(), events))
        }
        Err(fault) if fault.kind == ScheduleKind::Memory => Err(AllocError),
        Err(_fault) => Ok(false),
    }
}

/// Whether these are the same events.
fn are_same(some: &[Event], others: &[Event]) -> bool
    ensures { IsTrue result ↔ (some.now ≡ others.now) }
{
    let mut left = some;
    let mut right = others;
    while let Some((one, later)) = left.split_first() {
        let Some((other, behind)) = right.split_first() else {
            return false;
        };
        if !is_same(one, other) {
            return false;
        }
        left = later;
        right = behind;
    }
    right.is_empty()
}

/// Whether two events are the same.
fn is_same(one: &Event, other: &Event) -> bool
    ensures { IsTrue result ↔ (one.now ≡ other.now) }
{
    match *one {
        Event::Issue { .. } | Event::Cancel { .. } => is_same_call(one, other),
        _ => is_same_turn(one, other),
    }
}

/// Whether both are the same of what a caller asks for.
fn is_same_call(one: &Event, other: &Event) -> bool
    requires { is_call one.now ≡ true }
    ensures { IsTrue result ↔ (one.now ≡ other.now) }
{
    match (*one, *other) {
        (
            Event::Issue {
                thread,
                device,
                major,
                argument,
            },
            Event::Issue {
                thread: t,
                device: d,
                major: m,
                argument: a,
            },
        ) => thread == t && device == d && is_same_major(major, m) && argument == a,
        (
            Event::Cancel {
                thread,
                packet,
                level,
            },
            Event::Cancel {
                thread: t,
                packet: p,
                level: l,
            },
        ) => thread == t && packet == p && level == l,
        _ => false,
    }
}

/// Whether both are the same of what comes to a device, or lets a thread go on.
fn is_same_turn(one: &Event, other: &Event) -> bool
    requires { is_call one.now ≡ false }
    ensures { IsTrue result ↔ (one.now ≡ other.now) }
{
    match (*one, *other) {
        (Event::Interrupt { device }, Event::Interrupt { device: d }) => device == d,
        (
            Event::Dpc { thread, device },
            Event::Dpc {
                thread: t,
                device: d,
            },
        ) => thread == t && device == d,
        (
            Event::StartIo { thread, device },
            Event::StartIo {
                thread: t,
                device: d,
            },
        ) => thread == t && device == d,
        (Event::Step { thread }, Event::Step { thread: t }) => thread == t,
        _ => false,
    }
}

/// Whether two major functions are the same.
fn is_same_major(one: Major, other: Major) -> bool
    ensures { IsTrue result ↔ (one ≡ other) }
{
    match (one, other) {
        (Major::Read, Major::Read) => true,
        (Major::Write, Major::Write) => true,
        (Major::Control, Major::Control) => true,
        _ => false,
    }
}
