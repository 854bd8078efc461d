//! A fault of an input.

ghost use Rattle.std.specs.Prelude.{◌≡◌, ◌++◌, OnOk};
ghost use Rattle.json.specs.Tree.{members_tokens};
ghost use Rattle.report_json.specs.Fault.{fault_members, input_name, kind_alone, kind_and_line};

use crate::member::{begin, put_number, put_text};
use crate::to_json::ToJson;
use asm::AsmFault;
use image::ImageFault;
use interleave::schedule::ScheduleFault;
use json::Writer;
use report::fault::{image_fault_name, schedule_kind_name, text_kind_name};
use std::alloc::AllocError;

/// The name of the shape of a fault, and its edition.
const FORMAT: &str = "pafteis.fault/1";

/// What is wrong with a file.
#[derive(Clone, Copy)]
pub enum InputFault {
    /// It is the text of a driver set.
    Text(AsmFault),
    /// It is the image of a driver set.
    Image(ImageFault),
    /// It is a schedule.
    Schedule(ScheduleFault),
    /// It is a script.
    Script(ScheduleFault),
    /// It can't be read.
    Unreadable,
}

/// The fault of a file.
#[derive(Clone, Copy)]
pub struct FileFault<'a> {
    pub file: &'a str,
    pub fault: InputFault,
}

impl ToJson for FileFault<'_> {
    ghost use Rattle.report_json.specs.Fault.{fault_json};
    ghost use Rattle.report_json.specs.Nesting.{fault_nests};

    ghost json = { λ told. fault_json told.file.now told.fault };

    fn write(&self, out: &mut Writer) -> Result<(), AllocError> {
        begin(out, FORMAT, self.file)?;
        put_text(out, "input", input_name(self.fault))?;
        write_fault(out, self.fault)
    }

    ghost nests = { λ told. fault_nests told.file.now told.fault };
}

/// What a file was read as, or to be.
fn input_name(fault: InputFault) -> &'static str
    ensures { result.now ≡ input_name fault }
{
    match fault {
        InputFault::Text(_) => "text",
        InputFault::Image(_) => "image",
        InputFault::Schedule(_) => "schedule",
        InputFault::Script(_) => "script",
        InputFault::Unreadable => "file",
    }
}

/// Writes what is told of a fault, to the end of the object.
fn write_fault(out: &mut Writer, fault: InputFault) -> Result<(), AllocError>
    ensures before { out.new.before ≡ out.old.before }
    ensures tokens { OnOk result
        (out.new.tokens ≡ out.old.tokens ++ members_tokens (fault_members fault)) }
{
    match fault {
        InputFault::Text(AsmFault { line, kind }) => {
            write_kind_and_line(out, kind as u8, text_kind_name(kind), line)
        }
        InputFault::Image(fault) => write_kind(out, fault as u8, image_fault_name(fault)),
        InputFault::Schedule(ScheduleFault { line, kind })
        | InputFault::Script(ScheduleFault { line, kind }) => {
            write_kind_and_line(out, kind as u8, schedule_kind_name(kind), line)
        }
        InputFault::Unreadable => write_unreadable(out),
    }
}

/// Writes a kind by its number and its name, and a line, to the end of the object.
fn write_kind_and_line(
    out: &mut Writer,
    number: u8,
    name: &str,
    line: u64,
) -> Result<(), AllocError>
    ensures before { out.new.before ≡ out.old.before }
    ensures tokens { OnOk result (out.new.tokens
        ≡ out.old.tokens ++ members_tokens (kind_and_line number name.now line)) }
{
    put_number(out, "number", number as u64)?;
    put_text(out, "kind", name)?;
    put_number(out, "line", line)?;
    out.end_object()
}

/// Writes a kind by its number and its name, to the end of the object.
fn write_kind(out: &mut Writer, number: u8, name: &str) -> Result<(), AllocError>
    ensures before { out.new.before ≡ out.old.before }
    ensures tokens { OnOk result
        (out.new.tokens ≡ out.old.tokens ++ members_tokens (kind_alone number name.now)) }
{
    put_number(out, "number", number as u64)?;
    put_text(out, "kind", name)?;
    out.end_object()
}

/// Writes that a file can't be read, to the end of the object.
fn write_unreadable(out: &mut Writer) -> Result<(), AllocError>
    ensures before { out.new.before ≡ out.old.before }
    ensures tokens { OnOk result
        (out.new.tokens ≡ out.old.tokens ++ members_tokens (fault_members InputFault.Unreadable)) }
{
    put_text(out, "kind", "Unreadable")?;
    out.end_object()
}
