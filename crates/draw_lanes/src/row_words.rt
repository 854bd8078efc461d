//! The words of a row.

use crate::seen::Seen;
use model::event::{Event, Reply};
use model::instr::{Instr, Return};
use model::view::FrameView;
use std::alloc::{AllocError, Global};
use tell_changes::add_change;
use tell_names::Book;
use tell_uses::acting::Acting;
use words::Words;

/// Adds where the frame stands that acts: its routine and the line of its instruction, or what the
/// I/O manager does. Where a routine begins in the event, its name.
pub fn add_place(words: &mut Words, book: &Book<'_>, seen: Seen<'_>) {
    match seen.moment.acting {
        Some(acting) => book.add_spot(words, acting.frame),
        None => match *seen.event {
            Event::Issue { .. } | Event::Dpc { .. } | Event::StartIo { .. } => {
                add_begun(words, book, seen.top)
            }
            Event::Cancel { .. } => words.add("IoCancelIrp"),
            Event::Interrupt { .. } => words.add("interrupt"),
            Event::Step { .. } => {}
        },
    }
}

/// Adds the routine that has begun on the top of a thread.
fn add_begun(words: &mut Words, book: &Book<'_>, top: Option<FrameView>) {
    if let Some(
        FrameView::Routine {
            driver,
            routine,
            ..
        },
    ) = top
    {
        book.add_routine(words, driver, routine)
    }
}

/// Adds what an event changed.
pub fn add_words(words: &mut Words, book: &Book<'_>, seen: Seen<'_>) {
    let moment = seen.moment;
    match *seen.reply {
        Reply::Bug(bug) => {
            words.add("bug check ");
            words.add(bug.check.as_str());
            words.add(": ")
        }
        Reply::Wrong(_) => words.add("stopped: "),
        Reply::Refused => words.add("refused: "),
        Reply::Stepped | Reply::Finished => words.add(before_returned(moment.acting)),
        Reply::Started(_) | Reply::Topped { .. } | Reply::Waited | Reply::Idle => {}
    }
    add_change(words, book, seen.event, moment, seen.reply, seen.machine);
    if let (Reply::Stepped, Some(acting)) = (*seen.reply, moment.acting) {
        add_called(words, book, acting, seen.top);
    }
}

/// Where the frame stands that acts, or which routine begins, in words.
///
/// # Errors
///
/// When memory runs out.
pub fn place_words(alloc: Global, book: &Book<'_>, seen: Seen<'_>) -> Result<String, AllocError> {
    let mut words = Words::new(alloc);
    add_place(&mut words, book, seen);
    words.finish()
}

/// What an event changed, in words.
///
/// # Errors
///
/// When memory runs out.
pub fn changed_words(alloc: Global, book: &Book<'_>, seen: Seen<'_>) -> Result<String, AllocError> {
    let mut words = Words::new(alloc);
    add_words(&mut words, book, seen);
    words.finish()
}

/// What stands before the words for what a routine returns, where a step is that of its `ret`.
fn before_returned(acting: Option<Acting>) -> &'static str {
    let Some(
        Acting {
            instruction: Some(Instr::Ret(form)),
            ..
        },
    ) = acting
    else {
        return "";
    };
    match form {
        Return::Void => "returns",
        Return::WithStatus(_) | Return::Lower(_) | Return::Continue | Return::Stop => "returns: ",
    }
}

/// Adds the routine that a step has called: by `pass`, `call` or the I/O manager.
fn add_called(words: &mut Words, book: &Book<'_>, acting: Acting, top: Option<FrameView>) {
    let (
        Some(how),
        Some(
            FrameView::Routine {
                driver,
                routine,
                ..
            },
        ),
    ) = (how_called(acting), top)
    else {
        return;
    };
    words.add(how);
    book.add_routine(words, driver, routine)
}

/// How a step calls a routine, if it does where one stands on top after it.
fn how_called(acting: Acting) -> Option<&'static str> {
    match acting.frame {
        FrameView::Routine { .. } => {
            if matches!(acting.instruction, Some(Instr::Pass(_) | Instr::Call(_, _))) {
                Some("; calls ")
            } else {
                None
            }
        }
        FrameView::Walk(_) => Some("; calls "),
        FrameView::Cancel(_) => Some(": "),
    }
}
