//! The lines of what keeps a program from its answer.

ghost use Rattle.std.specs.Prelude.{◌≡◌, ◌+◌, ◌≤◌, ◌++◌, length};
ghost use Rattle.asm.specs.Laws.{kind_number};
ghost use Rattle.report.specs.Fault.{fault_line, image_fault_line, image_fault_name};
ghost use Rattle.report.specs.Fault.{image_fault_number, kind_and_line, schedule_fault_line};
ghost use Rattle.report.specs.Fault.{schedule_kind_name, schedule_kind_number, script_fault_line};
ghost use Rattle.report.specs.Fault.{text_fault_line, text_kind_name};
ghost use Rattle.report.specs.Lines.{HasRoom};

use crate::lines::{Lines, ROOM};
use asm::{AsmFault, AsmKind};
use image::ImageFault;
use interleave::schedule::{ScheduleFault, ScheduleKind};

/// An input can't be opened; its name follows.
pub const CANNOT_READ: &str = "cannot read ";
/// A read failed.
pub const READ_FAILED: &str = "read failed\n";
/// A write failed.
pub const WRITE_FAILED: &str = "write failed\n";
/// A growth was refused.
pub const OUT_OF_MEMORY: &str = "out of memory\n";

/// Bytes of the name of a kind of fault, at most.
const LONGEST_NAME: usize = 13;

/// Bytes of the line of a fault after the input's name, at most.
const LONGEST_FAULT: usize = 100;

impl Lines {
    /// Adds the line of a fault of the text of a driver set: number and name of its kind, and its
    /// line, from 1.
    pub fn text_fault(&mut self, fault: AsmFault)
        requires { HasRoom self.old }
        ensures { self.new ≡ self.old ++ text_fault_line fault }
    {
        let AsmFault { line, kind } = fault;
        self.text(b"text");
        self.fault(text_kind_number(kind), text_kind_name(kind), line);
    }

    /// Adds the line of a fault of an image: its number and name.
    pub fn image_fault(&mut self, fault: ImageFault)
        requires { HasRoom self.old }
        ensures { self.new ≡ self.old ++ image_fault_line fault }
    {
        self.text(b"image fault ");
        self.number(image_fault_number(fault) as u64);
        self.text(b" ");
        self.text(image_fault_name(fault).as_bytes());
        self.text(b"\n");
    }

    /// Adds the line of a fault of the text of a schedule, likewise.
    pub fn schedule_fault(&mut self, fault: ScheduleFault)
        requires { HasRoom self.old }
        ensures { self.new ≡ self.old ++ schedule_fault_line fault }
    {
        self.text(b"schedule");
        self.kind_and_line(fault);
    }

    /// Adds the line of a fault of the text of a script, whose kinds are those of a schedule.
    pub fn script_fault(&mut self, fault: ScheduleFault)
        requires { HasRoom self.old }
        ensures { self.new ≡ self.old ++ script_fault_line fault }
    {
        self.text(b"script");
        self.kind_and_line(fault);
    }

    /// Adds what follows the input's name in the line of a fault of a schedule or a script.
    fn kind_and_line(&mut self, fault: ScheduleFault)
        requires { length self.old + LONGEST_FAULT ≤ ROOM }
        ensures { self.new ≡ self.old ++ kind_and_line fault }
    {
        let ScheduleFault { line, kind } = fault;
        self.fault(schedule_kind_number(kind), schedule_kind_name(kind), line);
    }

    /// Adds what follows the input's name in the line of a fault.
    fn fault(&mut self, number: u8, name: &str, line: u64)
        requires room { length self.old + LONGEST_FAULT ≤ ROOM }
        requires short { length name.now ≤ LONGEST_NAME }
        ensures { self.new ≡ self.old ++ fault_line number name.now line }
    {
        self.text(b" fault ");
        self.number(number as u64);
        self.text(b" ");
        self.text(name.as_bytes());
        self.text(b" line ");
        self.number(line);
        self.text(b"\n");
    }
}

/// The number of a kind of fault of the text of a set.
fn text_kind_number(kind: AsmKind) -> u8
    ensures { result ≡ kind_number kind }
{
    kind as u8
}

/// The name of a kind of fault of the text of a set.
pub fn text_kind_name(kind: AsmKind) -> &'static str
    ensures name { result.now ≡ text_kind_name kind }
    ensures short { length result.now ≤ LONGEST_NAME }
{
    match kind {
        AsmKind::Lex => "Lex",
        AsmKind::UnknownWord => "UnknownWord",
        AsmKind::DuplicateName => "DuplicateName",
        AsmKind::UnknownName => "UnknownName",
        AsmKind::OutOfRange => "OutOfRange",
        AsmKind::Unclosed => "Unclosed",
        AsmKind::OverLimit => "OverLimit",
        AsmKind::Memory => "Memory",
    }
}

/// The number of a fault of an image.
fn image_fault_number(fault: ImageFault) -> u8
    ensures { result ≡ image_fault_number fault }
{
    fault as u8
}

/// The name of a fault of an image.
pub fn image_fault_name(fault: ImageFault) -> &'static str
    ensures name { result.now ≡ image_fault_name fault }
    ensures short { length result.now ≤ LONGEST_NAME }
{
    match fault {
        ImageFault::Magic => "Magic",
        ImageFault::Truncated => "Truncated",
        ImageFault::Trailing => "Trailing",
        ImageFault::BadOpcode => "BadOpcode",
        ImageFault::OverLimit => "OverLimit",
        ImageFault::Memory => "Memory",
    }
}

/// The number of a kind of fault of a schedule.
fn schedule_kind_number(kind: ScheduleKind) -> u8
    ensures { result ≡ schedule_kind_number kind }
{
    kind as u8
}

/// The name of a kind of fault of a schedule.
pub fn schedule_kind_name(kind: ScheduleKind) -> &'static str
    ensures name { result.now ≡ schedule_kind_name kind }
    ensures short { length result.now ≤ LONGEST_NAME }
{
    match kind {
        ScheduleKind::Lex => "Lex",
        ScheduleKind::UnknownWord => "UnknownWord",
        ScheduleKind::OutOfRange => "OutOfRange",
        ScheduleKind::TooLong => "TooLong",
        ScheduleKind::Memory => "Memory",
    }
}
