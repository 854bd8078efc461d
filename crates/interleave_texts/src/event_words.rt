//! The words of events.

ghost use Rattle.std.specs.Prelude.{◌≡◌, ◌++◌, OnOk, option_map};
ghost use Rattle.interleave_texts.specs.Listed.{goes_on};
ghost use Rattle.interleave_texts.specs.Words.{event_words, major_word, one_number, step_words};
ghost use Rattle.interleave_texts.specs.Words.{two_numbers};

use crate::appending::{add, add_number};
use model::event::Event;
use model::status::Major;
use std::alloc::AllocError;

/// Adds the words of an event that happens so many times in a row.
///
/// # Errors
///
/// When memory runs out.
pub fn add_event(text: &mut Vec<u8>, event: &Event, times: u64) -> Result<(), AllocError>
    ensures { OnOk result (text.new.items ≡ text.old.items ++ event_words event.now times) }
{
    match *event {
        Event::Issue {
            thread,
            device,
            major,
            argument,
        } => {
            add_two(text, b"issue ", u64::from(thread), u64::from(device))?;
            add_behind(text, major_word(major), argument)
        }
        Event::Cancel {
            thread,
            packet,
            level,
        } => {
            add_two(text, b"cancel ", u64::from(thread), packet)?;
            add_behind(text, b" ", u64::from(level))
        }
        Event::Interrupt { device } => add_behind(text, b"interrupt ", u64::from(device)),
        Event::Dpc { thread, device } => {
            add_two(text, b"dpc ", u64::from(thread), u64::from(device))
        }
        Event::StartIo { thread, device } => {
            add_two(text, b"startio ", u64::from(thread), u64::from(device))
        }
        Event::Step { thread } => add_steps(text, u64::from(thread), times),
    }
}

/// Adds steps of a thread.
fn add_steps(text: &mut Vec<u8>, thread: u64, times: u64) -> Result<(), AllocError>
    ensures { OnOk result (text.new.items ≡ text.old.items ++ step_words thread times) }
{
    if times > 1 {
        add_two(text, b"step ", thread, times)
    } else {
        add_behind(text, b"step ", thread)
    }
}

/// Adds a word and a number.
fn add_behind(text: &mut Vec<u8>, word: &[u8], number: u64) -> Result<(), AllocError>
    ensures { OnOk result (text.new.items ≡ text.old.items ++ one_number word.now number) }
{
    add(text, word)?;
    add_number(text, number)
}

/// Adds a word and two numbers.
fn add_two(text: &mut Vec<u8>, word: &[u8], first: u64, second: u64) -> Result<(), AllocError>
    ensures { OnOk result (text.new.items ≡ text.old.items ++ two_numbers word.now first second) }
{
    add_behind(text, word, first)?;
    add_behind(text, b" ", second)
}

/// The word of a major function, with a space on each side.
fn major_word(major: Major) -> &'static [u8]
    ensures { result.now ≡ major_word major }
{
    match major {
        Major::Read => b" READ ",
        Major::Write => b" WRITE ",
        Major::Control => b" CONTROL ",
    }
}

/// Whether an event and the next one are steps of one thread, which may stand on one line.
pub fn goes_on(event: &Event, next: Option<&Event>) -> bool
    ensures { result ≡ goes_on event.now (option_map (λ next. next.now) next.entry) }
{
    let (Event::Step { thread }, Some(next)) = (*event, next) else {
        return false;
    };
    match *next {
        Event::Step { thread: other } => other == thread,
        _ => false,
    }
}
