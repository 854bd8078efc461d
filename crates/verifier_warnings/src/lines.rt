//! A line for each driver of an accepted set that takes locks: in which order it takes those of
//! which it holds two at once.

ghost use Rattle.std.specs.Prelude.{◌≡◌, ◌++◌, IfOk, false, length, slice_get, string_bytes};
ghost use Rattle.std.specs.List.{list_any};
ghost use Rattle.verifier_orders.specs.Orders.{AreLockOrders, ArePaired, IsLockOrder};
ghost use Rattle.verifier_warnings.specs.Lines.{IsOrderLine, comma, is_taking, lock_name};
ghost use Rattle.verifier_warnings.specs.Lines.{names_to, order_words, takes_in, takes_lock};
ghost use Rattle.verifier_warnings.specs.Orders.{EndsWith};
ghost use Rattle.verifier_warnings.specs.Warnings.{AreLines};

use crate::orders::Telling;
use driver_set::DriverSet;
use model::instr::Instr;
use model::set::{Driver, Guard, Routine};
use std::alloc::{AllocError, Global};
use verifier::Accepted;
use verifier_orders::LockOrder;
use words::Words;

/// The lines of all drivers, in order.
pub(crate) fn order_lines(
    alloc: Global,
    accepted: &Accepted,
    telling: &Telling<'_, '_>,
    orders: &[LockOrder],
) -> Result<String, AllocError>
    requires { AreLockOrders accepted.now (length accepted.now.drivers) orders.now }
    ensures { IfOk result (λ lines. AreLines (IsOrderLine accepted.now)
        (length accepted.now.drivers) (string_bytes lines)) }
{
    let mut lines = String::new(alloc);
    for number in 0..accepted.set().drivers().len() {
        let line = order_line(alloc, accepted, telling, number as u8, &orders[number])?;
        lines.push_str(line.as_str())?;
    }
    Ok(lines)
}

/// The line of the driver of a number, or nothing where its locks have no order.
fn order_line(
    alloc: Global,
    accepted: &Accepted,
    telling: &Telling<'_, '_>,
    number: u8,
    order: &LockOrder,
) -> Result<String, AllocError>
    requires { IsLockOrder accepted.now number order.now }
    ensures { IfOk result (λ line. IsOrderLine accepted.now number (string_bytes line)) }
{
    match order {
        LockOrder::Ordered(locks) => ordered_line(
            alloc,
            accepted,
            telling,
            number,
            locks.paired.as_slice(),
        ),
        LockOrder::Cycle(_) => Ok(String::new(alloc)),
    }
}

/// The line of a driver that takes these locks two at once, in this order, or nothing where it takes
/// no lock.
fn ordered_line(
    alloc: Global,
    accepted: &Accepted,
    telling: &Telling<'_, '_>,
    number: u8,
    paired: &[Guard],
) -> Result<String, AllocError>
    requires { ArePaired accepted.now number paired.now }
    ensures { IfOk result (λ line. IsOrderLine accepted.now number (string_bytes line)) }
{
    if !takes_lock(accepted.set(), number) {
        return Ok(String::new(alloc));
    }
    line_of(alloc, telling, number, paired)
}

/// The line of a driver that takes these locks two at once.
fn line_of(
    alloc: Global,
    telling: &Telling<'_, '_>,
    number: u8,
    locks: &[Guard],
) -> Result<String, AllocError>
    ensures { IfOk result (λ line. EndsWith (string_bytes line) (order_words locks.now)) }
{
    let mut words = Words::new(alloc);
    telling.names(number).add_driver(&mut words, number);
    add_order(&mut words, locks);
    words.finish()
}

/// Adds, behind the name of a driver, in which order it takes the locks that it takes two at once.
fn add_order(words: &mut Words, locks: &[Guard])
    ensures { words.new.lacks ≡ false → (words.old.lacks ≡ false)
        × (string_bytes words.new.text ≡ string_bytes words.old.text ++ order_words locks.now) }
{
    if locks.is_empty() {
        words.add(" holds no two locks at once.\n");
        return;
    }
    words.add(" takes its locks in this order: ");
    add_locks(words, locks);
    words.add(".\n")
}

/// Adds the names of locks, with commas between them.
fn add_locks(words: &mut Words, locks: &[Guard])
    ensures { words.new.lacks ≡ false → (words.old.lacks ≡ false)
        × (string_bytes words.new.text
        ≡ string_bytes words.old.text ++ names_to locks.now (length locks.now)) }
{
    for place in 0..locks.len() {
        words.add(comma(place));
        add_lock(words, &locks[place]);
    }
}

/// What stands before the name of a place in a row.
fn comma(place: usize) -> &'static str
    ensures { result.now ≡ comma place }
{
    if place == 0 { "" } else { ", " }
}

/// Adds the name of a lock.
pub(crate) fn add_lock(words: &mut Words, lock: &Guard)
    ensures { words.new.lacks ≡ false → (words.old.lacks ≡ false)
        × (string_bytes words.new.text ≡ string_bytes words.old.text ++ lock_name lock.now) }
{
    match lock {
        Guard::DeviceLock(spin) => {
            words.add("l");
            words.add_number(spin.index() as u64)
        }
        Guard::CancelLock => words.add("the system cancel spin lock"),
    }
}

/// Whether a routine of the driver of a number takes a lock.
fn takes_lock(set: &DriverSet, number: u8) -> bool
    ensures { result ≡ takes_lock (slice_get set.now.drivers number) }
{
    match set.drivers().get(number as usize) {
        Some(driver) => takes_in_one(driver),
        None => false,
    }
}

/// Whether a routine of a driver takes a lock.
fn takes_in_one(driver: &Driver) -> bool
    ensures { result ≡ list_any takes_in driver.now.routines }
{
    driver
        .routines
        .as_slice()
        .iter()
        .any(|routine| takes_in(routine))
}

/// Whether a routine takes a lock.
fn takes_in(routine: &Routine) -> bool
    ensures { result ≡ takes_in routine.now }
{
    routine.code.as_slice().iter().any(|instr| is_taking(instr))
}

/// Whether an instruction takes a lock.
fn is_taking(instr: &Instr) -> bool
    ensures { result ≡ is_taking instr.now }
{
    matches!(*instr, Instr::Acquire(_) | Instr::AcquireCancel)
}
