//! The routines of an accepted set by name.

use driver_set::DriverSet;
use model::set::{Driver, Sort};
use verifier_names::{Names, SetNames};
use words::Words;

/// Adds the routines of a set, a line each: where they stand, their sort and their names.
pub(crate) fn add_roll(words: &mut Words, names: &SetNames<'_>, set: &DriverSet) {
    let mut number: u8 = 0;
    for driver in set.drivers() {
        add_routines(words, names.in_driver(number), number, driver);
        number = number.saturating_add(1);
    }
}

/// Adds the lines of a driver's routines.
fn add_routines(words: &mut Words, names: Names<'_, '_>, number: u8, driver: &Driver) {
    let mut place: u8 = 0;
    for routine in driver.routines.as_slice() {
        add_place(words, number, place);
        names.add_driver(words, number);
        words.add(", ");
        names.add_routine(words, place);
        add_sort(words, routine.sort);
        words.add("\n");
        place = place.saturating_add(1);
    }
}

/// Adds where a routine stands.
fn add_place(words: &mut Words, driver: u8, routine: u8) {
    words.add("driver ");
    words.add_number(driver as u64);
    words.add(" routine ");
    words.add_number(routine as u64);
    words.add(": ")
}

/// Adds the sort of a routine, behind its name.
pub(crate) fn add_sort(words: &mut Words, sort: Sort) {
    words.add(" (");
    words.add(sort.as_str());
    words.add(")")
}
