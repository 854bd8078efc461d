//! The lines of a listing.

ghost use Rattle.std.specs.Prelude.{◌≡◌, ◌++◌, OnOk, string_bytes};
ghost use Rattle.asm_line.specs.ListedWords.{line_text};
ghost use Rattle.asm_line.specs.declared.entry.Entry.TheVariants as Line;

use crate::listed_instruction::write_instruction;
use model::instr::Instr;
use model::set::{Device, Queue, Sort};
use model::status::Major;
use std::alloc::AllocError;
use text::major::major_text;

/// A line of a listing, by the numbers of what it names.
#[derive(Clone, Copy)]
pub enum Entry {
    /// `driver NAME`.
    Driver(usize),
    /// `queue NAME LOCK` and `queue NAME LOCK ROUTINE`.
    Queue(usize, Queue),
    /// `dispatch MAJOR ROUTINE`.
    Handler(Major, u8),
    /// `startio ROUTINE` and `startio ROUTINE CANCEL`.
    StartIo(u8, Option<u8>),
    /// `dpc ROUTINE`.
    Dpc(u8),
    /// `routine NAME SORT`.
    Routine(usize, Sort),
    /// An instruction, with a label of its own position where it is jumped to.
    Step(Option<usize>, Instr),
    /// `endr`.
    EndRoutine,
    /// `endd`.
    EndDriver,
    /// `device NAME DRIVER STACK` and `device NAME DRIVER STACK LOWER`.
    Device(usize, Device),
}

impl Entry {
    /// Adds the line to a text.
    ///
    /// # Errors
    ///
    /// When memory runs out.
    pub fn write(self, text: &mut String) -> Result<(), AllocError>
        ensures { OnOk result (string_bytes text.new ≡ string_bytes text.old ++ line_text self) }
    {
        match self {
            Entry::Driver(number) => write!(text, "driver d{number}\n"),
            Entry::Queue(number, queue) => write_queue(text, number, queue),
            Entry::Handler(major, routine) => {
                write!(text, "dispatch {} f{routine}\n", major_text(major))
            }
            Entry::StartIo(routine, cancel) => write_startio(text, routine, cancel),
            Entry::Dpc(routine) => write!(text, "dpc f{routine}\n"),
            Entry::Routine(number, sort) => {
                write!(text, "routine f{number} {}\n", sort.as_str())
            }
            Entry::Step(label, instr) => write_step(text, label, instr),
            Entry::EndRoutine => text.push_str("endr\n"),
            Entry::EndDriver => text.push_str("endd\n"),
            Entry::Device(number, device) => write_device(text, number, device),
        }
    }
}

/// Adds the line of a queue.
fn write_queue(text: &mut String, number: usize, queue: Queue) -> Result<(), AllocError>
    ensures { OnOk result (string_bytes text.new
        ≡ string_bytes text.old ++ line_text (Line.Queue number queue)) }
{
    let guard = queue.guard.index();
    match queue.cancel {
        Some(routine) => write!(text, "queue q{number} l{guard} f{routine}\n"),
        None => write!(text, "queue q{number} l{guard}\n"),
    }
}

/// Adds the line of a StartIo routine.
fn write_startio(text: &mut String, routine: u8, cancel: Option<u8>) -> Result<(), AllocError>
    ensures { OnOk result (string_bytes text.new
        ≡ string_bytes text.old ++ line_text (Line.StartIo routine cancel)) }
{
    match cancel {
        Some(cancel) => write!(text, "startio f{routine} f{cancel}\n"),
        None => write!(text, "startio f{routine}\n"),
    }
}

/// Adds the line of an instruction.
fn write_step(text: &mut String, label: Option<usize>, instr: Instr) -> Result<(), AllocError>
    ensures { OnOk result (string_bytes text.new
        ≡ string_bytes text.old ++ line_text (Line.Step label instr)) }
{
    if let Some(position) = label {
        write!(text, "a{position}: ")?;
    }
    write_instruction(text, instr)
}

/// Adds the line of a device.
fn write_device(text: &mut String, number: usize, device: Device) -> Result<(), AllocError>
    ensures { OnOk result (string_bytes text.new
        ≡ string_bytes text.old ++ line_text (Line.Device number device)) }
{
    let Device {
        driver,
        stack,
        lower,
    } = device;
    match lower {
        Some(lower) => write!(text, "device v{number} d{driver} {stack} v{lower}\n"),
        None => write!(text, "device v{number} d{driver} {stack}\n"),
    }
}
