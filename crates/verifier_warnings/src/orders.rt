//! The orders in which the drivers of an accepted set take their locks, in words.

ghost use Rattle.std.specs.Prelude.{◌++◌, IfOk, OnOk, string_bytes};
ghost use Rattle.model.specs.Typable.{IsTypable};
ghost use Rattle.verifier_warnings.specs.Lines.{AreOrderWords, TellsEach};
ghost use Rattle.verifier_warnings.specs.Orders.{EndsRightly, EndsWith, TellsCycle, TellsCycles};
ghost use Rattle.verifier_warnings.specs.Orders.{TellsOrders, advice};

use crate::lines::{add_lock, order_lines};
use crate::roll::{add_roll, add_sort};
use asm_places::{outline, routine_source};
use driver_set::DriverSet;
use std::alloc::{AllocError, Global};
use text::Spot;
use verifier::Accepted;
use verifier_names::{Names, Origin, SetNames, Source, add_lines, add_title, listed_routine};
use verifier_orders::{Edge, LockOrder, orders_of};
use words::Words;

/// What is told last where each driver takes its locks in an order.
const NO_RING: &str = "No threads ever wait for each other in a ring, and every routine ends.\n";

/// What is told last of a cycle.
const ADVICE: &str = "Acquire these locks in one order everywhere.\n";

/// A set of which is told, and what it was read from.
#[derive(Drop)]
pub(crate) struct Telling<'s, 't> {
    set: &'s DriverSet,
    origin: Origin<'t>,
    names: SetNames<'t>,
}

impl<'s, 't> Telling<'s, 't> {
    /// That of a set which was read from this.
    pub(crate) fn of(
        alloc: Global,
        origin: Origin<'t>,
        set: &'s DriverSet,
    ) -> Result<Telling<'s, 't>, AllocError> {
        Ok(Telling {
            set,
            origin,
            names: names_of(alloc, origin)?,
        })
    }

    /// What the driver of a number and the things in it are called.
    pub(crate) fn names(&self, number: u8) -> Names<'_, 't> {
        self.names.in_driver(number)
    }
}

/// What the things in a set are called.
fn names_of<'t>(alloc: Global, origin: Origin<'t>) -> Result<SetNames<'t>, AllocError> {
    match origin {
        Origin::Text(text) => SetNames::of(alloc, text, &outline(alloc, text)?),
        Origin::Image => Ok(SetNames::Listed),
    }
}

/// An instruction's line in what is quoted.
#[derive(Drop)]
pub(crate) struct Quoted<'t> {
    source: Source<'t>,
    line: Option<Spot>,
}

impl Quoted<'_> {
    /// The number of the line.
    pub(crate) fn number(&self) -> Option<u64> {
        match self.line {
            Some(line) => Some(line.number),
            None => None,
        }
    }
}

/// What is told of an accepted set: its routines, a line each; of each driver that takes locks the
/// order of those that it takes two at once, or that it takes no two so; and the cycles in which
/// drivers take their locks, with the lines that make them.
///
/// # Errors
///
/// When memory runs out.
pub fn acceptance(
    alloc: Global,
    origin: Origin<'_>,
    accepted: &Accepted,
) -> Result<String, AllocError>
    ensures typable { IsTypable accepted.now }
    ensures orders { IfOk result (λ words. TellsOrders accepted.now (string_bytes words)) }
    ensures each { IfOk result (λ words. TellsEach accepted.now (string_bytes words)) }
{
    let set = accepted.set();
    let orders = orders_of(alloc, accepted)?;
    let telling = Telling::of(alloc, origin, set)?;
    let lines = order_lines(alloc, accepted, &telling, orders.as_slice())?;
    let end = end_words(alloc, &telling, orders.as_slice())?;
    routines_before(alloc, &telling, lines.as_str(), end.as_str())
}

/// The lock orders of an accepted set, a line for each driver that takes locks: the order of those
/// that it takes two at once, or that it takes no two so. There is none of a driver that takes its
/// locks in a cycle.
///
/// # Errors
///
/// When memory runs out.
pub fn lock_orders(
    alloc: Global,
    origin: Origin<'_>,
    accepted: &Accepted,
) -> Result<String, AllocError>
    ensures { IfOk result (λ words. AreOrderWords accepted.now (string_bytes words)) }
{
    let orders = orders_of(alloc, accepted)?;
    let telling = Telling::of(alloc, origin, accepted.set())?;
    order_lines(alloc, accepted, &telling, orders.as_slice())
}

/// The routines of a set, a line each, and other words behind them.
fn routines_before(
    alloc: Global,
    telling: &Telling<'_, '_>,
    lines: &str,
    end: &str,
) -> Result<String, AllocError>
    ensures { IfOk result (λ words. EndsWith (string_bytes words) (lines.now ++ end.now)) }
{
    let mut words = Words::new(alloc);
    add_roll(&mut words, &telling.names, telling.set);
    words.add(lines);
    words.add(end);
    words.finish()
}

/// The cycle of each driver that has one, or, if none has, that no threads wait in a ring.
fn end_words(
    alloc: Global,
    telling: &Telling<'_, '_>,
    orders: &[LockOrder],
) -> Result<String, AllocError>
    ensures { IfOk result (λ end. EndsRightly orders.now (string_bytes end)) }
{
    let mut end = String::new(alloc);
    let some = add_cycles(alloc, &mut end, telling, orders)?;
    if !some {
        end.push_str(NO_RING)?;
    }
    Ok(end)
}

/// Adds the cycle of each driver that has one, and answers whether there is any.
fn add_cycles(
    alloc: Global,
    prose: &mut String,
    telling: &Telling<'_, '_>,
    orders: &[LockOrder],
) -> Result<bool, AllocError>
    ensures { IfOk result
        (λ some. TellsCycles orders.now (string_bytes prose.old) (string_bytes prose.new) some) }
{
    let mut some = false;
    let mut number: u8 = 0;
    for order in orders {
        let cycle = add_if_cycle(alloc, prose, telling, number, order)?;
        some = cycle | some;
        number = number.saturating_add(1);
    }
    Ok(some)
}

/// Adds the cycle of a driver, if it has one, and answers whether it has.
fn add_if_cycle(
    alloc: Global,
    prose: &mut String,
    telling: &Telling<'_, '_>,
    number: u8,
    order: &LockOrder,
) -> Result<bool, AllocError>
    ensures { IfOk result
        (λ cycle. TellsCycle order.now (string_bytes prose.old) (string_bytes prose.new) cycle) }
{
    let LockOrder::Cycle(edges) = order else {
        return Ok(false);
    };
    add_cycle(alloc, prose, telling, number, edges.as_slice())?;
    Ok(true)
}

/// Adds the lines at which the routines of a driver take locks in a cycle, and the cycle.
fn add_cycle(
    alloc: Global,
    prose: &mut String,
    telling: &Telling<'_, '_>,
    number: u8,
    cycle: &[Edge],
) -> Result<(), AllocError>
    ensures { OnOk result (EndsWith (string_bytes prose.new) advice) }
{
    let told = cycle_words(alloc, telling, number, cycle)?;
    prose.push_str(told.as_str())?;
    prose.push_str(ADVICE)
}

/// The lines at which the routines of a driver take locks in a cycle, and the cycle.
fn cycle_words(
    alloc: Global,
    telling: &Telling<'_, '_>,
    number: u8,
    cycle: &[Edge],
) -> Result<String, AllocError> {
    let mut words = Words::new(alloc);
    let mut lines = Vec::new(alloc);
    for edge in cycle {
        let line = add_quoted(alloc, &mut words, telling, number, edge);
        if lines.push(line).is_err() {
            words.lacks = true;
        }
    }
    let names = telling.names(number);
    begin_cycle(&mut words, names, number);
    words.add(": ");
    add_edges(&mut words, names, cycle, lines.as_slice());
    words.add(". Threads that run them for one device may wait for each other for ever. ");
    words.finish()
}

/// Adds that the driver of a number takes its locks in a cycle.
pub(crate) fn begin_cycle(words: &mut Words, names: Names<'_, '_>, number: u8) {
    names.add_driver(words, number);
    words.add(" takes its locks in a cycle")
}

/// Adds where a routine of the driver of a number takes a lock, with the lines round that, and
/// answers the number of its line.
fn add_quoted(
    alloc: Global,
    words: &mut Words,
    telling: &Telling<'_, '_>,
    number: u8,
    edge: &Edge,
) -> Option<u64> {
    match line_of(alloc, telling, number, edge) {
        Ok(quoted) => {
            add_quote(words, telling, number, edge, &quoted);
            quoted.number()
        }
        Err(AllocError) => {
            words.lacks = true;
            None
        }
    }
}

/// Adds where that is, with the lines that are quoted.
fn add_quote(
    words: &mut Words,
    telling: &Telling<'_, '_>,
    number: u8,
    edge: &Edge,
    quoted: &Quoted<'_>,
) {
    add_title(words, telling.names(number), number, edge.routine);
    if let Some(driver) = telling.set.drivers().get(number as usize) {
        if let Some(routine) = driver.routines.as_slice().get(edge.routine as usize) {
            add_sort(words, routine.sort);
        }
    }
    add_lines(words, quoted.source.bytes(), edge.at, quoted.line)
}

/// The line of the instruction of an edge.
pub(crate) fn line_of<'t>(
    alloc: Global,
    telling: &Telling<'_, 't>,
    number: u8,
    edge: &Edge,
) -> Result<Quoted<'t>, AllocError> {
    match telling.origin {
        Origin::Text(text) => {
            let found = routine_source(alloc, text, number, edge.routine)?;
            Ok(Quoted {
                source: Source::Text(text),
                line: found.lines.get(edge.at as usize),
            })
        }
        Origin::Image => {
            let listed = listed_routine(alloc, telling.set, number, edge.routine)?;
            Ok(Quoted {
                line: listed.spots.get(edge.at as usize),
                source: Source::Listing(listed.text),
            })
        }
    }
}

/// Adds the edges of a cycle, as they are walked, with the numbers of their lines.
fn add_edges(words: &mut Words, names: Names<'_, '_>, cycle: &[Edge], lines: &[Option<u64>]) {
    let last = cycle.len().saturating_sub(1);
    for (place, edge) in cycle.iter().enumerate() {
        words.add(between(place, last));
        add_edge(
            words,
            names,
            edge,
            lines.get(place).copied().unwrap_or(None),
        );
    }
}

/// What stands before the part of a place in a row up to a last one.
fn between(place: usize, last: usize) -> &'static str {
    if place == 0 {
        ""
    } else if place == last {
        ", and "
    } else {
        ", "
    }
}

/// Adds which lock a routine takes where, and under which.
fn add_edge(words: &mut Words, names: Names<'_, '_>, edge: &Edge, line: Option<u64>) {
    names.add_routine_alone(words, edge.routine);
    words.add(" acquires ");
    add_lock(words, &edge.taken);
    words.add(" at");
    add_line(words, line, edge.at);
    words.add(" while it holds ");
    add_lock(words, &edge.held)
}

/// Adds the number of a line, or of a position that has none.
pub(crate) fn add_line(words: &mut Words, line: Option<u64>, at: u16) {
    match line {
        Some(number) => {
            words.add(" line ");
            words.add_number(number)
        }
        None => {
            words.add(" position ");
            words.add_number(at as u64)
        }
    }
}
