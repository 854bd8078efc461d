//! Texts of a file's answer, told with its name.

ghost use Rattle.std.specs.Prelude.{◌≡◌, IfOk, codes, true};
ghost use Rattle.drvhost_devices.specs.Device.{CanCount, SaysBehind};
ghost use Rattle.drvhost_many.specs.Marked.{gap, headed, lines_named, marked, named_answer, noted};

use cli::job::Judging;
use drvhost_devices::device::Sink;
use drvhost_devices::told::Told;
use drvhost_devices::unopened::say_behind;
use report::fault::OUT_OF_MEMORY;
use std::alloc::{AllocError, Global};

/// One of several files: how its set is judged, and its name.
#[derive(Clone, Copy)]
pub(crate) struct One<'n> {
    pub(crate) judging: Judging,
    pub(crate) name: &'n str,
}

impl<'n> One<'n> {
    /// A file of this name, and how its set is judged.
    pub(crate) fn of(judging: Judging, name: &'n str) -> One<'n>
        ensures judging { result.judging ≡ judging }
        ensures name { result.name.now ≡ name.now }
    {
        One { judging, name }
    }
}

/// The answer for a file, told with its name.
pub(crate) fn with_name(alloc: Global, one: One<'_>, told: &Told) -> Result<Told, AllocError>
    ensures { IfOk result (λ named.
        named ≡ named_answer one.entry.judging one.entry.name.now told.now) }
{
    let written = mark(alloc, one, told.output())?;
    let errors = note(alloc, one, told.told())?;
    Ok(Told::of(told.status(), written, errors))
}

/// What goes out for a file, told with its name.
fn mark(alloc: Global, one: One<'_>, text: &[u8]) -> Result<Vec<u8>, AllocError>
    ensures { IfOk result (λ bytes.
        bytes.items ≡ marked one.entry.judging one.entry.name.now text.now) }
{
    match one.judging {
        Judging::Check => name_lines(alloc, one.name, text),
        Judging::CheckJson | Judging::ExplainJson(_) => {
            let mut bytes = Vec::new(alloc);
            bytes.extend_from_slice(text)?;
            Ok(bytes)
        }
        Judging::Explain(_extent, _coloring) => head(alloc, one.name, text),
    }
}

/// What is told besides of a file, with its name.
fn note(alloc: Global, one: One<'_>, text: &[u8]) -> Result<Vec<u8>, AllocError>
    ensures { IfOk result (λ bytes.
        bytes.items ≡ noted one.entry.judging one.entry.name.now text.now) }
{
    match one.judging {
        Judging::Check | Judging::CheckJson | Judging::ExplainJson(_) => {
            name_lines(alloc, one.name, text)
        }
        Judging::Explain(_extent, _coloring) => head(alloc, one.name, text),
    }
}

/// A text with a name before each of its lines.
///
/// # Errors
///
/// When memory runs out.
pub fn name_lines(alloc: Global, name: &str, text: &[u8]) -> Result<Vec<u8>, AllocError>
    ensures { IfOk result (λ bytes. bytes.items ≡ lines_named name.now true text.now) }
{
    let mut bytes = Vec::new(alloc);
    let mut starts = true;
    for &byte in text {
        if starts {
            bytes.extend_from_slice(name.as_bytes())?;
            bytes.extend_from_slice(b": ")?;
        }
        bytes.push(byte)?;
        starts = byte == b'\n';
    }
    Ok(bytes)
}

/// A text, if there is one, below a line with a name.
fn head(alloc: Global, name: &str, text: &[u8]) -> Result<Vec<u8>, AllocError>
    ensures { IfOk result (λ bytes. bytes.items ≡ headed name.now text.now) }
{
    let mut bytes = Vec::new(alloc);
    if !text.is_empty() {
        bytes.extend_from_slice(name.as_bytes())?;
        bytes.extend_from_slice(b":\n")?;
        bytes.extend_from_slice(text)?;
    }
    Ok(bytes)
}

/// Tells that memory ran out for a file, with its name, behind what an error writer was told since
/// it had failed so often. It takes no memory.
pub(crate) fn tell_no_memory<E: Sink>(one: One<'_>, failures: u64, err: &mut E)
    requires { CanCount failures }
    ensures { SaysBehind failures (E.failures err.old) (E.failures err.new) (E.contents err.old)
        (E.contents err.new)
        (noted one.entry.judging one.entry.name.now (codes "out of memory\n")) }
{
    say_behind(one.name.as_bytes(), failures, err);
    say_behind(gap(one.judging).as_bytes(), failures, err);
    say_behind(OUT_OF_MEMORY.as_bytes(), failures, err);
}

/// What stands between the name of a file and what is told of it.
fn gap(judging: Judging) -> &'static str
    ensures { result.now ≡ gap judging }
{
    match judging {
        Judging::Check | Judging::CheckJson | Judging::ExplainJson(_) => ": ",
        Judging::Explain(_extent, _coloring) => ":\n",
    }
}
