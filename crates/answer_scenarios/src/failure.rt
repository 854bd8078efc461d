//! What is said of a step that fails: what its line says, and what is there instead.

use crate::writing::{add_numbered, add_token};
use asm_line::status_text;
use checked::Checked;
use interleave::schedule::MAX_EVENTS;
use model::abs::Refusal;
use model::event::{Lock, Reply};
use model::view::PacketView;
use model::world::Activation;
use scenario_expected::expectation::{DeviceState, Expectation, List, PacketState};
use scenario_names::operands::CellName;
use scenario_run::holding::amiss;
use scenario_run::playing::Playing;
use scenario_steps::scenario::{Action, Step};
use scenario_world::cells::number_of;
use scenario_world::lists::entries_of;
use scenario_world::marks::{is_marked, is_unmarked};
use std::alloc::{AllocError, Global};
use tell_audit::amiss::Amiss;
use tell_audit::ring::waits_for;
use tell_audit::sites::{Site, sites_of};
use tell_names::{Book, add_lock};
use tell_uses::standing::frames_on;
use text::cut::Lines;
use text::token::Tokens;
use words::Words;

/// What is said of a step of a scenario that fails, behind the number of its line and a colon: with
/// the names of a text that names its set.
///
/// # Errors
///
/// When memory runs out.
pub(crate) fn failure_words(
    alloc: Global,
    source: &[u8],
    text: &[u8],
    playing: &Playing,
    step: &Step,
) -> Result<String, AllocError> {
    let book = Book::of(alloc, source)?;
    let mut words = Words::new(alloc);
    let tokens = Tokens::of(line_of(text, step.line));
    add_failure(alloc, &mut words, &book, tokens, playing, &step.action);
    words.finish()
}

/// Adds what the tokens of a line say, and what is there instead.
fn add_failure(
    alloc: Global,
    words: &mut Words,
    book: &Book<'_>,
    tokens: Tokens<'_>,
    playing: &Playing,
    action: &Action,
) {
    match action {
        Action::Expect(expectation) => {
            add_expectation(words, expectation, tokens);
            words.add(", ");
            add_found(alloc, words, book, playing, expectation);
        }
        Action::Together { threads, worlds } => {
            add_tokens(words, tokens);
            words.add(": ");
            add_joined(words, book, playing, threads, *worlds);
        }
        _ => {
            add_tokens(words, tokens);
            words.add(": ");
            add_reply(words, book, playing);
        }
    }
}

/// Adds what the tokens of a line expect, and of what.
fn add_expectation(words: &mut Words, expectation: &Expectation, mut tokens: Tokens<'_>) {
    let _expect = tokens.next();
    add_subject(words, expectation, &mut tokens);
    words.add(" expected");
    add_tokens(words, tokens)
}

/// Adds why threads that ran together failed: one isn't there, a step of an interleaving stopped
/// the run or had no room in it, or more worlds were met than may be.
fn add_joined(
    words: &mut Words,
    book: &Book<'_>,
    playing: &Playing,
    threads: &[bool; 64],
    worlds: u64,
) {
    let there = playing.threads() as usize;
    for thread in there..threads.len() {
        if threads[thread] {
            words.add("no thread ");
            return words.add_number(thread as u64);
        }
    }
    if playing.machine().stopped() {
        return add_reply(words, book, playing);
    }
    if playing.count() >= MAX_EVENTS {
        return words.add("more events than a schedule has");
    }
    add_numbered(words, "there are more than ", worlds, " worlds")
}

/// The line of a number.
fn line_of(text: &[u8], number: u64) -> &[u8] {
    let mut left = Lines::of(text);
    for _ in 1..number {
        let _before = left.next();
    }
    left.next().unwrap_or(&[])
}

/// Adds the tokens that are left of a line.
fn add_tokens(words: &mut Words, mut tokens: Tokens<'_>) {
    while let Some(token) = tokens.next() {
        words.add(" ");
        add_token(words, token);
    }
}

/// Adds of what something is expected.
fn add_subject(words: &mut Words, expectation: &Expectation, tokens: &mut Tokens<'_>) {
    let (sort, count) = subject_of(expectation);
    if count == 0 {
        return;
    }
    words.add(sort);
    for _ in 0..count {
        words.add(" ");
        add_token(words, tokens.next().unwrap_or(&[]));
    }
    words.add(":")
}

/// What its sort is called, and how many tokens of the line name it.
fn subject_of(expectation: &Expectation) -> (&'static str, usize) {
    match expectation {
        Expectation::Clean
        | Expectation::Bug(_)
        | Expectation::Verdict(_)
        | Expectation::Judged { .. } => ("", 0),
        Expectation::Packet { .. } => (" packet", 1),
        Expectation::Thread { .. } => ("", 2),
        Expectation::Device { state, .. } => match state {
            DeviceState::Has { .. } => ("", 3),
            _ => (" device", 1),
        },
        Expectation::Lock { lock, .. } => match lock {
            Lock::SystemCancel => ("", 2),
            Lock::Spin(_) => ("", 3),
        },
        Expectation::Listed { list, .. } => match list {
            List::Queue(_) => ("", 3),
            List::StartList | List::DeviceQueue => ("", 4),
        },
    }
}

/// Adds what is there.
fn add_found(
    alloc: Global,
    words: &mut Words,
    book: &Book<'_>,
    playing: &Playing,
    expectation: &Expectation,
) {
    let machine = playing.machine();
    match *expectation {
        Expectation::Clean => add_amiss(alloc, words, book, playing),
        Expectation::Bug(_) => add_reply(words, book, playing),
        Expectation::Packet { packet, state } => {
            add_packet(alloc, words, book, playing, packet);
            add_more(alloc, words, book, playing, packet, &state)
        }
        Expectation::Thread { thread, .. } => add_thread(words, book, machine, thread),
        Expectation::Device { device, state } => match state {
            DeviceState::Has { cell, .. } => add_cell(words, machine, device, cell),
            _ => add_device(words, machine, device),
        },
        Expectation::Lock { lock, .. } => add_owner(words, machine, lock),
        Expectation::Listed { device, list, .. } => add_list(words, machine, device, list),
        Expectation::Verdict(_) => words.add("the verdict isn't known"),
        Expectation::Judged { found, .. } => add_verdict(words, book, &found),
    }
}

/// Adds what the verdict on the set found, as a line expects it.
fn add_verdict(words: &mut Words, book: &Book<'_>, found: &Option<Refusal>) {
    let Some(refusal) = found else {
        return words.add("the set is accepted");
    };
    let rule = u64::from(refusal.rule.number());
    add_numbered(words, "the set is refused V", rule, " at ");
    book.add_routine(words, refusal.driver, refusal.routine);
    add_numbered(words, " ", u64::from(refusal.at), "")
}

/// Adds what else is asked of a packet, where it is live.
fn add_more(
    alloc: Global,
    words: &mut Words,
    book: &Book<'_>,
    playing: &Playing,
    packet: u16,
    state: &PacketState,
) {
    let Some(number) = playing.number_of(packet) else {
        return;
    };
    let machine = playing.machine();
    let view = machine.packet(number);
    match state {
        PacketState::Marked if is_unmarked(&view) => {
            words.add(", its current location isn't marked")
        }
        PacketState::Unmarked if is_marked(&view) => {
            words.add(", its current location is marked")
        }
        PacketState::Held { .. } => add_sites(alloc, words, book, machine, number, Sort::Routine),
        _ => {}
    }
}

/// Adds the routine that has a packet in a register.
fn add_holder(words: &mut Words, book: &Book<'_>, machine: &Checked, site: &Site) {
    if let Site::Register { thread, frame, .. } = *site {
        if let Some(a) = activation_at(machine, thread, frame) {
            words.add(", held by ");
            book.add_routine(words, a.driver, a.routine);
        }
    }
}

/// The routine in a frame of a thread.
fn activation_at(machine: &Checked, thread: usize, frame: usize) -> Option<&Activation> {
    frames_on(machine, thread).get(frame)?.activation()
}

/// Adds the number in a cell of a device.
fn add_cell(words: &mut Words, machine: &Checked, device: u8, cell: CellName) {
    match number_of(machine, device, cell) {
        Ok(Some(number)) => add_numbered(words, "it is ", number, ""),
        Ok(None) => words.add("there is no such device"),
        Err(error) => words.note(Err(error)),
    }
}

/// Adds who owns a lock.
fn add_owner(words: &mut Words, machine: &Checked, lock: Lock) {
    match machine.shared().owner(lock) {
        Some(Some(owner)) => add_numbered(words, "thread ", u64::from(owner), " owns it"),
        Some(None) => words.add("it is free"),
        None => words.add("there is no such device"),
    }
}

/// Adds what stands in a list of a device.
fn add_list(words: &mut Words, machine: &Checked, device: u8, list: List) {
    let Some(entries) = entries_of(machine, device, list) else {
        return words.add("there is no such list");
    };
    if entries.len() == 0 {
        return words.add("it is empty");
    }
    words.add("it has ");
    let mut is_first = true;
    for place in 0..entries.len() {
        if let Some(number) = entries.entry(place) {
            let mark = if is_first { "packet " } else { ", packet " };
            add_numbered(words, mark, number, "");
            is_first = false;
        }
    }
}

/// Adds what is amiss in a run.
fn add_amiss(alloc: Global, words: &mut Words, book: &Book<'_>, playing: &Playing) {
    if playing.machine().stopped() {
        return words.add("the run has stopped");
    }
    match amiss(alloc, playing) {
        Ok(Some(found)) => add_found_amiss(words, book, &found),
        Ok(None) => words.add("nothing is amiss"),
        Err(error) => words.note(Err(error)),
    }
}

/// Adds what was found amiss.
fn add_found_amiss(words: &mut Words, book: &Book<'_>, found: &Amiss) {
    match *found {
        Amiss::Stopped(_) => words.add("the run has stopped"),
        Amiss::Lost(packet) => {
            add_numbered(words, "packet ", packet, " is lost: no place names it")
        }
        Amiss::Left(left) => {
            add_lock(words, book, left.lock);
            let thread = u64::from(left.thread);
            add_numbered(words, " is left behind by thread ", thread, "")
        }
        Amiss::Ringed(thread) => {
            add_numbered(words, "thread ", u64::from(thread), " waits in a ring")
        }
        Amiss::Disagrees(location_use) => add_numbered(
            words,
            "packet ",
            location_use.packet(),
            ": a status was returned that disagrees with the mark",
        ),
    }
}

/// Adds how a packet stands.
fn add_packet(alloc: Global, words: &mut Words, book: &Book<'_>, playing: &Playing, packet: u16) {
    let Some(number) = playing.number_of(packet) else {
        return words.add("it wasn't issued");
    };
    if let PacketView::Live(live) = playing.machine().packet(number) {
        words.add(if live.cancel {
            "it is live and cancelled"
        } else {
            "it is live"
        });
        return add_sites(alloc, words, book, playing.machine(), number, Sort::List);
    }
    match playing.top_out(number) {
        Some(top) => {
            words.add("it is topped ");
            words.add(status_text(top.status));
            add_numbered(words, " information ", top.info, "")
        }
        None => words.add("it wasn't issued"),
    }
}

/// What is said of where a packet is named.
#[derive(Clone, Copy)]
enum Sort {
    /// The lists that it stands in, and on which thread it is completed.
    List,
    /// The routines that have it in a register.
    Routine,
}

/// Adds where a packet is named, of a sort.
fn add_sites(
    alloc: Global,
    words: &mut Words,
    book: &Book<'_>,
    machine: &Checked,
    number: u64,
    sort: Sort,
) {
    let sites = match sites_of(alloc, machine, number) {
        Ok(sites) => sites,
        Err(error) => return words.note(Err(error)),
    };
    for site in sites.iter() {
        match sort {
            Sort::List => add_site(words, book, machine, site),
            Sort::Routine => add_holder(words, book, machine, site),
        }
    }
}

fn add_site(words: &mut Words, book: &Book<'_>, machine: &Checked, site: &Site) {
    match *site {
        Site::Queue { device, queue } => {
            words.add(", in queue ");
            let driver = match machine.set().devices().get(device as usize) {
                Some(device) => device.driver,
                None => return,
            };
            book.add_queue(words, driver, queue);
            words.add(" of ");
            book.add_device(words, device)
        }
        Site::StartList { device } => {
            words.add(", in the start list of ");
            book.add_device(words, device)
        }
        Site::DeviceQueue { device } => {
            words.add(", in the device queue of ");
            book.add_device(words, device)
        }
        Site::Slot { device } => {
            words.add(", current on ");
            book.add_device(words, device)
        }
        Site::Completing { thread, .. } => {
            add_numbered(words, ", completed on thread ", thread as u64, "")
        }
        Site::Register { .. } | Site::CancelWord(_) => {}
    }
}

/// Adds how a thread stands.
fn add_thread(words: &mut Words, book: &Book<'_>, machine: &Checked, thread: u8) {
    let Some(view) = machine.thread(thread) else {
        return words.add("there is no such thread");
    };
    let Some(top) = view.top else {
        return words.add("it is idle");
    };
    words.add("it is busy in ");
    book.add_spot(words, top);
    match waits_for(machine, thread) {
        Some(owner) => add_numbered(words, ", waiting for thread ", u64::from(owner), ""),
        None => {}
    }
}

/// Adds how a device stands.
fn add_device(words: &mut Words, machine: &Checked, device: u8) {
    let Some(start) = machine.shared().start_of(device) else {
        return words.add("there is no such device");
    };
    words.add(if start.is_busy() {
        "it is busy"
    } else {
        "it is idle"
    });
    words.add(if machine.shared().is_queued(device) {
        ", its DPC is queued"
    } else {
        ", its DPC isn't queued"
    })
}

/// Adds the last reply.
fn add_reply(words: &mut Words, book: &Book<'_>, playing: &Playing) {
    let Some(last) = playing.last() else {
        return words.add("nothing can happen");
    };
    match last {
        Reply::Idle => words.add("nothing to do"),
        Reply::Finished => words.add("the packet has topped out"),
        Reply::Bug(bug) => {
            words.add("bug ");
            words.add(bug.check.as_str())
        }
        Reply::Wrong(place) => {
            words.add("a wrong operand in ");
            book.add_routine(words, place.driver, place.routine)
        }
        Reply::Refused => words.add("refused"),
        Reply::Started(_) | Reply::Stepped | Reply::Topped { .. } | Reply::Waited => {
            words.add("it comes to no end")
        }
    }
}
