//! The text of a scenario that makes events happen.

use crate::finding::Find;
use interleave_texts::event_words::goes_on;
use model::event::Event;
use model::status::Major;
use scenario_names::names::Names;
use std::alloc::{AllocError, Global};
use text::add_bytes;
use words::Words;

/// A scenario that makes the events of a run happen, with a word before the line of the last one,
/// and then expects that nothing is amiss.
pub(crate) fn write_scenario(
    alloc: Global,
    names: &Names<'_>,
    find: Find<'_>,
    word: &str,
) -> Result<Vec<u8>, AllocError> {
    let mut words = Words::new(alloc);
    add_all(&mut words, names, find, word);
    Ok(words.finish()?.into_bytes())
}

/// Adds its lines.
fn add_all(words: &mut Words, names: &Names<'_>, find: Find<'_>, word: &str) {
    add_token(words, find.headline);
    add_numbered(words, "threads ", u64::from(find.threads), "\n");
    if let Some((last, before)) = find.events.split_last() {
        let issued = add_lines(words, names, before);
        words.add(word);
        add_line(words, names, last, 1, issued);
    }
    words.add("expect clean\n")
}

/// Adds the lines of events, and answers how many packets they issue. Steps of a thread that come
/// one after another stand on one line.
fn add_lines(words: &mut Words, names: &Names<'_>, events: &[Event]) -> u64 {
    let mut times: u64 = 0;
    let mut issued: u64 = 0;
    for place in 0..events.len() {
        if let Some(event) = events.get(place) {
            times = times.saturating_add(1);
            if !goes_on(event, events.get(place.saturating_add(1))) {
                add_line(words, names, event, times, issued);
                times = 0;
            }
            if let Event::Issue { .. } = event {
                issued = issued.saturating_add(1);
            }
        }
    }
    issued
}

/// Adds the line of an event that happens so many times, where so many packets were issued before.
fn add_line(words: &mut Words, names: &Names<'_>, event: &Event, times: u64, issued: u64) {
    match *event {
        Event::Issue {
            thread,
            device,
            major,
            argument,
        } => {
            add_numbered(words, "p", issued, "");
            add_placed(words, names, " = issue ", thread, device);
            add_numbered(words, word_of(major), argument, "")
        }
        Event::Cancel {
            thread,
            packet,
            level,
        } => {
            add_numbered(words, "cancel ", u64::from(thread), " p");
            words.add_number(packet);
            add_numbered(words, " ", u64::from(level), "")
        }
        Event::Interrupt { device } => {
            words.add("interrupt ");
            add_device(words, names, device)
        }
        Event::Dpc { thread, device } => add_placed(words, names, "dpc ", thread, device),
        Event::StartIo { thread, device } => add_placed(words, names, "startio ", thread, device),
        Event::Step { thread } => {
            add_numbered(words, "step ", u64::from(thread), " ");
            words.add_number(times)
        }
    }
    words.add("\n")
}

/// Adds a word, the number of a thread, and a device.
fn add_placed(words: &mut Words, names: &Names<'_>, word: &str, thread: u8, device: u8) {
    add_numbered(words, word, u64::from(thread), " ");
    add_device(words, names, device)
}

/// Adds the name of a device, or its number where it has none.
fn add_device(words: &mut Words, names: &Names<'_>, device: u8) {
    match names.devices.get(device as usize) {
        Some(name) => add_token(words, name.bytes()),
        None => words.add_number(u64::from(device)),
    }
}

/// Adds a token, or a line.
pub(crate) fn add_token(words: &mut Words, token: &[u8]) {
    let done = add_bytes(&mut words.text, token);
    words.note(done)
}

/// Adds a number between words.
pub(crate) fn add_numbered(words: &mut Words, before: &str, number: u64, behind: &str) {
    words.add(before);
    words.add_number(number);
    words.add(behind)
}

/// The word of a major function, with a space on each side.
fn word_of(major: Major) -> &'static str {
    match major {
        Major::Read => " READ ",
        Major::Write => " WRITE ",
        Major::Control => " CONTROL ",
    }
}
