//! Threads that run in every interleaving, and how far that goes.

ghost use Rattle.std.specs.Prelude.{◌≡◌};
ghost use Rattle.scenario_text.specs.Together.{bound_line, bounded, threads_line, together_line};

use interleave::schedule::ScheduleKind;
use scenario_names::operands::number_of;
use scenario_steps::scenario::{Action, MAX_WORLDS, USUAL_WORLDS};
use text::class::is;
use text::token::Tokens;

/// `together T ..`, or `together T .. up to N worlds`.
pub(crate) fn together_line(mut operands: Tokens) -> Result<Action, ScheduleKind>
    ensures { result ≡ together_line operands.entry }
{
    match operands.next() {
        Some(thread) => {
            let first = number_of(0, 63, thread)?;
            let mut threads = [false; 64];
            threads[first as usize] = true;
            threads_line(threads, operands)
        }
        None => Err(ScheduleKind::UnknownWord),
    }
}

/// Threads besides these, and how far it goes.
fn threads_line(mut threads: [bool; 64], mut operands: Tokens) -> Result<Action, ScheduleKind>
    ensures { result ≡ threads_line threads operands.entry }
{
    while let Some(word) = operands.next() {
        if is(word, b"up") {
            return bound_line(threads, operands);
        }
        let thread = number_of(0, 63, word)?;
        threads[thread as usize] = true;
    }
    Ok(Action::Together {
        threads,
        worlds: USUAL_WORLDS,
    })
}

/// `to N worlds`.
fn bound_line(threads: [bool; 64], mut operands: Tokens) -> Result<Action, ScheduleKind>
    ensures { result ≡ bound_line threads operands.entry }
{
    let three = (operands.next(), operands.next(), operands.next());
    match (three, operands.next()) {
        ((Some(to), Some(number), Some(worlds)), None) => bounded(threads, to, number, worlds),
        _ => Err(ScheduleKind::UnknownWord),
    }
}

/// So many worlds at most.
fn bounded(
    threads: [bool; 64],
    to: &[u8],
    number: &[u8],
    worlds: &[u8],
) -> Result<Action, ScheduleKind>
    ensures { result ≡ bounded threads to.now number.now worlds.now }
{
    if is(to, b"to") && is(worlds, b"worlds") {
        let worlds = number_of(1, MAX_WORLDS, number)?;
        Ok(Action::Together { threads, worlds })
    } else {
        Err(ScheduleKind::UnknownWord)
    }
}
