//! A run that was looked for, written as a schedule.

ghost use Rattle.std.specs.Prelude.{◌≤◌, IfOk, IfSome};
ghost use Rattle.hunt_schedule.specs.Telling.{TellsItsEnd};
ghost use Rattle.model.specs.declared.limits.TheConstants.{MAX_THREADS};

use crate::comments::Telling;
use crate::grounds::Grounds;
use crate::headline::headline;
use crate::reading::tells_its_end;
use crate::tidying::tidied;
use checked::Checked;
use interleave_texts::appending::{add, add_number};
use interleave_texts::event_words::{add_event, goes_on};
use model::event::Event;
use std::alloc::{AllocError, Global};
use tell_audit::ending::Ending;
use tell_names::Book;
use words::Words;

/// Where the comments of lines stand.
const COMMENTS: usize = 24;

/// The text of a schedule for the run of these events on the threads of a hunt: its first line
/// tells how it ends, and comments what each line does. Steps of a thread are told together where
/// the run ends alike. None where the run of what the text lists doesn't end so.
///
/// # Errors
///
/// When memory runs out.
pub fn schedule_text(
    alloc: Global,
    grounds: Grounds<'_>,
    events: &[Event],
    ending: &Ending,
) -> Result<Option<Vec<u8>>, AllocError>
    requires some { 1 ≤ grounds.bounds.threads }
    requires few { grounds.bounds.threads ≤ MAX_THREADS }
    ensures { IfOk result (λ text. IfSome text
        (λ text. TellsItsEnd grounds.entry.set.now grounds.entry.bounds text.items)) }
{
    let Grounds { set, bounds, .. } = grounds;
    let mut text = headline(alloc, ending)?;
    let order = tidied(alloc, set, bounds, events, text.as_slice())?;
    add(&mut text, b"threads ")?;
    add_number(&mut text, u64::from(bounds.threads))?;
    add(&mut text, b"\n")?;
    add_events(alloc, &mut text, grounds, order.as_slice())?;
    if tells_its_end(alloc, set, bounds, text.as_slice())? {
        return Ok(Some(text));
    }
    Ok(None)
}

/// Adds the lines of events, and what each does.
fn add_events(
    alloc: Global,
    text: &mut Vec<u8>,
    grounds: Grounds<'_>,
    events: &[Event],
) -> Result<(), AllocError>
    requires some { 1 ≤ grounds.bounds.threads }
    requires few { grounds.bounds.threads ≤ MAX_THREADS }
{
    let Ok(set) = grounds.set.copy(alloc) else {
        return Err(AllocError);
    };
    let Ok(machine) = Checked::new(alloc, set, grounds.bounds.threads) else {
        return Err(AllocError);
    };
    let book = Book::of(alloc, grounds.source)?;
    add_lines(alloc, text, &mut Telling { machine, book }, events)
}

/// Adds the lines of events. Steps of a thread that come one after another stand on one line.
fn add_lines(
    alloc: Global,
    text: &mut Vec<u8>,
    telling: &mut Telling<'_>,
    events: &[Event],
) -> Result<(), AllocError> {
    let mut start = 0;
    for place in 0..events.len() {
        let behind = place.saturating_add(1);
        if let (Some(event), Some(line)) = (events.get(place), events.get(start..behind)) {
            if !goes_on(event, events.get(behind)) {
                let from = text.len();
                add_event(text, event, line.len() as u64)?;
                add_comment(alloc, text, from, telling, line)?;
                start = behind;
            }
        }
    }
    Ok(())
}

/// Adds what the line of these events does, which starts at a place of a text, and ends it.
fn add_comment(
    alloc: Global,
    text: &mut Vec<u8>,
    from: usize,
    telling: &mut Telling<'_>,
    events: &[Event],
) -> Result<(), AllocError> {
    let words = line_words(alloc, telling, events)?;
    add_behind(text, from, words.as_str())?;
    add(text, b"\n")
}

/// What the line of these events does.
fn line_words(
    alloc: Global,
    telling: &mut Telling<'_>,
    events: &[Event],
) -> Result<String, AllocError> {
    let mut words = Words::new(alloc);
    telling.add_line(&mut words, events);
    words.finish()
}

/// Adds words, if there are some, as the comment of the line that starts at a place of a text.
fn add_behind(text: &mut Vec<u8>, from: usize, words: &str) -> Result<(), AllocError> {
    if words.is_empty() {
        return Ok(());
    }
    let length = text.len().saturating_sub(from);
    for _blank in length..COMMENTS {
        add(text, b" ")?;
    }
    add(text, b" ; ")?;
    add(text, words.as_bytes())
}
