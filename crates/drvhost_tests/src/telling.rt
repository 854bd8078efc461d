//! What is told of tests.

ghost use Rattle.std.specs.Prelude.{◌≡◌, ◌++◌, IfOk};
ghost use Rattle.drvhost_devices.specs.Answer.{ended, faulty};
ghost use Rattle.drvhost_tests.specs.Reports.{alone};
ghost use Rattle.drvhost_tests.specs.Tests.{marked, refused, unread};
ghost use Rattle.report.specs.Fault.{image_fault_line, schedule_fault_line, text_fault_line};

use crate::reporting::alone;
use crate::test::Tests;
use answer_scenarios::telling::{self, tell_refusal};
use asm::AsmFault;
use drvhost_devices::fault::Fault;
use drvhost_devices::told::Told;
use image::ImageFault;
use interleave::schedule::ScheduleFault;
use model::abs::Refusal;
use report::fault::READ_FAILED;
use report::lines::Lines;
use std::alloc::{AllocError, Global};

/// What was told of a scenario, or of a refused set, as an answer.
pub(crate) fn answer_of(alloc: Global, told: telling::Told) -> Told
    ensures { result ≡ ended told.end told.text.items }
{
    Told::of(told.end.status(), told.text, Vec::new(alloc))
}

/// That the file of a name can't be read.
pub(crate) fn tell_unread(alloc: Global, name: &str) -> Result<Told, AllocError>
    ensures { IfOk result (λ told. told ≡ unread name.now) }
{
    tell_faulty(alloc, name, READ_FAILED.as_bytes(), &[])
}

/// That the file of the set can't be read, where that is the fault; any other is want of memory.
pub(crate) fn tell_unread_set(
    alloc: Global,
    tests: Tests<'_>,
    fault: Fault,
) -> Result<Told, AllocError>
    ensures { IfOk result (λ told. (fault ≡ Fault.Read)
        × (told ≡ alone tests.entry.report tests.entry.set.now (unread tests.entry.set.now))) }
{
    match fault {
        Fault::Read => {
            let told = tell_unread(alloc, tests.set)?;
            alone(alloc, tests.report, tests.set, &told)
        }
        _ => Err(AllocError),
    }
}

/// That its text is faulty.
pub(crate) fn tell_text_fault(
    alloc: Global,
    tests: Tests<'_>,
    fault: AsmFault,
) -> Result<Told, AllocError>
    ensures { IfOk result (λ told. told ≡ alone tests.entry.report tests.entry.set.now
        (faulty (marked tests.entry.set.now (text_fault_line fault)))) }
{
    let mut lines = Lines::new(alloc)?;
    lines.text_fault(fault);
    tell_faulty_set(alloc, tests, lines.bytes())
}

/// That its image is.
pub(crate) fn tell_image_fault(
    alloc: Global,
    tests: Tests<'_>,
    fault: ImageFault,
) -> Result<Told, AllocError>
    ensures { IfOk result (λ told. told ≡ alone tests.entry.report tests.entry.set.now
        (faulty (marked tests.entry.set.now (image_fault_line fault)))) }
{
    let mut lines = Lines::new(alloc)?;
    lines.image_fault(fault);
    tell_faulty_set(alloc, tests, lines.bytes())
}

/// That it is, by a line.
fn tell_faulty_set(alloc: Global, tests: Tests<'_>, line: &[u8]) -> Result<Told, AllocError>
    ensures { IfOk result (λ told. told ≡ alone tests.entry.report tests.entry.set.now
        (faulty (marked tests.entry.set.now line.now))) }
{
    let told = tell_faulty(alloc, tests.set, line, &[])?;
    alone(alloc, tests.report, tests.set, &told)
}

/// That the set is refused; a refusal for want of memory is no verdict.
pub(crate) fn tell_refused(alloc: Global, refusal: &Refusal) -> Result<Told, AllocError>
    ensures { IfOk result (λ told. told ≡ refused refusal.now) }
{
    match tell_refusal(alloc, refusal) {
        Ok(told) => Ok(answer_of(alloc, told)),
        Err(_) => Err(AllocError),
    }
}

/// That its scenario is, with some words behind.
pub(crate) fn tell_schedule_fault(
    alloc: Global,
    name: &str,
    fault: ScheduleFault,
    words: &[u8],
) -> Result<Told, AllocError>
    ensures { IfOk result (λ told.
        told ≡ faulty (marked name.now (schedule_fault_line fault ++ words.now))) }
{
    let mut lines = Lines::new(alloc)?;
    lines.schedule_fault(fault);
    tell_faulty(alloc, name, lines.bytes(), words)
}

/// That the file of a name is faulty, by a line and words behind it.
fn tell_faulty(alloc: Global, name: &str, line: &[u8], words: &[u8]) -> Result<Told, AllocError>
    ensures { IfOk result (λ told. told ≡ faulty (marked name.now (line.now ++ words.now))) }
{
    let mut errors = Vec::new(alloc);
    errors.extend_from_slice(name.as_bytes())?;
    errors.extend_from_slice(b": ")?;
    errors.extend_from_slice(line)?;
    errors.extend_from_slice(words)?;
    Ok(Told::of(2, Vec::new(alloc), errors))
}
