//! The warnings of an accepted set's drivers that take their locks in a cycle.

ghost use Rattle.std.specs.Prelude.{◌≡◌, [], IfOk, OnOk, length, string_bytes};
ghost use Rattle.verifier_warnings.specs.Orders.{EndsWith};
ghost use Rattle.verifier_warnings.specs.Warnings.{AddsWarning, AreLines, AreWarnings, WarnsAt};
ghost use Rattle.verifier_warnings.specs.Warnings.{for_ever};

use crate::orders::{Telling, add_line, begin_cycle, line_of};
use std::alloc::{AllocError, Global};
use verifier::Accepted;
use verifier_names::Origin;
use verifier_orders::{Edge, LockOrder, orders_of};
use words::Words;

/// What is told last of a driver that takes its locks in a cycle.
const FOR_EVER: &str = "): workers may wait for each other for ever\n";

/// What is told of an accepted set before workers serve it: a line for each driver that takes its
/// locks in a cycle, with the routines that make it and their lines.
///
/// # Errors
///
/// When memory runs out.
pub fn warnings(
    alloc: Global,
    origin: Origin<'_>,
    accepted: &Accepted,
) -> Result<String, AllocError>
    ensures { IfOk result (λ words. AreWarnings accepted.now (string_bytes words)) }
{
    let orders = orders_of(alloc, accepted)?;
    let telling = Telling::of(alloc, origin, accepted.set())?;
    let mut lines = String::new(alloc);
    add_warnings(alloc, &mut lines, &telling, orders.as_slice())?;
    Ok(lines)
}

/// Adds a line for each of some orders that is a cycle.
fn add_warnings(
    alloc: Global,
    lines: &mut String,
    telling: &Telling<'_, '_>,
    orders: &[LockOrder],
) -> Result<(), AllocError>
    requires { string_bytes lines.old ≡ [] }
    ensures { OnOk result
        (AreLines (WarnsAt orders.now) (length orders.now) (string_bytes lines.new)) }
{
    let mut number: u8 = 0;
    for order in orders {
        add_warning(alloc, lines, telling, number, order)?;
        number = number.saturating_add(1);
    }
    Ok(())
}

/// Adds the line of the driver of a number, if its order is a cycle.
fn add_warning(
    alloc: Global,
    lines: &mut String,
    telling: &Telling<'_, '_>,
    number: u8,
    order: &LockOrder,
) -> Result<(), AllocError>
    ensures { OnOk result
        (AddsWarning order.now (string_bytes lines.old) (string_bytes lines.new)) }
{
    let LockOrder::Cycle(cycle) = order else {
        return Ok(());
    };
    let line = cycle_line(alloc, telling, number, cycle.as_slice())?;
    lines.push_str(line.as_str())
}

/// The line of the driver of a number, which takes its locks in a cycle.
fn cycle_line(
    alloc: Global,
    telling: &Telling<'_, '_>,
    number: u8,
    cycle: &[Edge],
) -> Result<String, AllocError>
    ensures { IfOk result (λ line. EndsWith (string_bytes line) for_ever) }
{
    let mut line = cycle_words(alloc, telling, number, cycle)?;
    line.push_str(FOR_EVER)?;
    Ok(line)
}

/// That line, up to its last words.
fn cycle_words(
    alloc: Global,
    telling: &Telling<'_, '_>,
    number: u8,
    cycle: &[Edge],
) -> Result<String, AllocError> {
    let mut words = Words::new(alloc);
    begin_cycle(&mut words, telling.names(number), number);
    words.add(" (");
    for (place, edge) in cycle.iter().enumerate() {
        words.add(if place == 0 { "" } else { ", " });
        add_edge(alloc, &mut words, telling, number, edge);
    }
    words.finish()
}

/// Adds the routine of an edge of the driver of a number, and the line at which it takes the lock.
fn add_edge(alloc: Global, words: &mut Words, telling: &Telling<'_, '_>, number: u8, edge: &Edge) {
    telling.names(number).add_routine_alone(words, edge.routine);
    match line_of(alloc, telling, number, edge) {
        Ok(quoted) => add_line(words, quoted.number(), edge.at),
        Err(AllocError) => words.lacks = true,
    }
}
