//! A column for each thread.

use checked::Checked;
use model::event::Event;
use std::alloc::AllocError;
use tell_uses::standing::thread_of;

/// Adds a column for each thread: its number where the event is about it, else whether it has
/// frames. Each is as wide as the number.
pub(crate) fn add_columns(
    columns: &mut Vec<u8>,
    machine: &Checked,
    event: &Event,
) -> Result<(), AllocError> {
    let acts = thread_of(event);
    for (number, thread) in machine.threads().iter().enumerate() {
        if is_number(acts, number) {
            add_number(columns, number)?;
        } else {
            columns.push(if thread.is_idle() { b'.' } else { b'|' })?;
            if number > 9 {
                columns.push(b' ')?;
            }
        }
    }
    Ok(())
}

/// Whether a thread has this number.
fn is_number(thread: Option<u8>, number: usize) -> bool {
    match thread {
        Some(thread) => thread as usize == number,
        None => false,
    }
}

/// Adds the number of a thread, 0 to 63.
fn add_number(columns: &mut Vec<u8>, number: usize) -> Result<(), AllocError> {
    if number > 9 {
        columns.push(digit(number / 10))?;
    }
    columns.push(digit(number))?;
    Ok(())
}

/// The last digit of a number.
fn digit(number: usize) -> u8 {
    b'0' + (number % 10) as u8
}
