//! Answers as text: verdicts on the output, and what is wrong with a file on the error output.

ghost use Rattle.std.specs.Prelude.{◌≡◌, ◌++◌, IfOk, OnOk, Some, slice_get};
ghost use Rattle.model.specs.Sound.{DriverFits};
ghost use Rattle.report.specs.Fault.{unopened_line};
ghost use Rattle.drvhost_devices.specs.Answer.{acceptance, ended, faulty, routine_lines};

use crate::form::Form;
use drvhost_devices::fault::End;
use drvhost_devices::told::Told;
use image::DriverSet;
use model::abs::Refusal;
use model::set::Driver;
use report::fault::{CANNOT_READ, READ_FAILED};
use report::lines::Lines;
use report_json::fault::InputFault;
use std::alloc::{AllocError, Global};
use verifier::Accepted;

/// Answers as text.
#[derive(Clone, Copy)]
pub struct Text;

impl Form for Text {
    ghost use Rattle.std.specs.Prelude.{◌≡◌, ℕ, List, Err, codes};
    ghost use Rattle.drvhost_devices.specs.Answer.{IsRefused, IsUnopened, acceptance, ended};
    ghost use Rattle.drvhost_devices.specs.Answer.{FileSays, faulty};
    ghost use Rattle.drvhost_devices.specs.declared.fault.End.TheVariants.{Complete};

    ghost is_unopened = { λ _ name. IsUnopened name };

    ghost is_unread = { λ _ _ answer. answer ≡ faulty (codes "read failed\n") };

    ghost is_faulty = { λ _ _ bytes answer.
        (line : List ℕ) × FileSays bytes (Err line) × (answer ≡ faulty line) };

    ghost is_refused = { λ _ _ _ set. IsRefused set };

    ghost is_accepted = { λ _ _ _ set answer. answer ≡ ended Complete (acceptance set) };

    fn unopened(&self, alloc: Global, name: &str) -> Result<Told, AllocError> {
        let mut line = Vec::new(alloc);
        line.extend_from_slice(CANNOT_READ.as_bytes())?;
        line.extend_from_slice(name.as_bytes())?;
        line.push(b'\n')?;
        Ok(faulty(alloc, line))
    }

    fn unread(&self, alloc: Global, _name: &str) -> Result<Told, AllocError> {
        let mut line = Vec::new(alloc);
        line.extend_from_slice(READ_FAILED.as_bytes())?;
        Ok(faulty(alloc, line))
    }

    fn faulty(
        &self,
        alloc: Global,
        _name: &str,
        _bytes: &[u8],
        fault: InputFault,
    ) -> Result<Told, AllocError> {
        let mut lines = Lines::new(alloc)?;
        match fault {
            InputFault::Text(fault) => lines.text_fault(fault),
            InputFault::Image(fault) => lines.image_fault(fault),
            InputFault::Schedule(_) | InputFault::Script(_) | InputFault::Unreadable => {
                unreachable!()
            }
        }
        let mut line = Vec::new(alloc);
        line.extend_from_slice(lines.bytes())?;
        Ok(faulty(alloc, line))
    }

    fn refused(
        &self,
        alloc: Global,
        _name: &str,
        _bytes: &[u8],
        _set: &DriverSet,
        refusal: &Refusal,
    ) -> Result<Told, AllocError> {
        let mut lines = Lines::new(alloc)?;
        lines.refusal(refusal);
        let mut text = Vec::new(alloc);
        text.extend_from_slice(lines.bytes())?;
        Ok(ended(alloc, End::Stopped, text))
    }

    fn accepted(
        &self,
        alloc: Global,
        _name: &str,
        _bytes: &[u8],
        accepted: &Accepted,
    ) -> Result<Told, AllocError> {
        Ok(ended(alloc, End::Complete, acceptance(alloc, accepted)?))
    }
}

/// An input is faulty, and a line tells it.
pub fn faulty(alloc: Global, line: Vec<u8>) -> Told
    ensures { result ≡ faulty line.items }
{
    Told::of(2, Vec::new(alloc), line)
}

/// A job ended so, with a text.
pub fn ended(alloc: Global, end: End, text: Vec<u8>) -> Told
    ensures { result ≡ ended end text.items }
{
    Told::of(end.status(), text, Vec::new(alloc))
}

/// The lines of an accepted set.
fn acceptance(alloc: Global, accepted: &Accepted) -> Result<Vec<u8>, AllocError>
    ensures { IfOk result (λ text. text.items ≡ acceptance accepted.now) }
{
    let mut lines = Lines::new(alloc)?;
    lines.accepted();
    let mut text = Vec::new(alloc);
    text.extend_from_slice(lines.bytes())?;
    for (number, driver) in accepted.set().drivers().iter().enumerate() {
        add_routines(accepted, number as u8, driver, &mut lines, &mut text)?;
    }
    Ok(text)
}

/// Adds the lines of the routines of the driver of a number.
fn add_routines(
    accepted: &Accepted,
    number: u8,
    driver: &Driver,
    lines: &mut Lines,
    text: &mut Vec<u8>,
) -> Result<(), AllocError>
    requires driver { slice_get accepted.now.drivers number ≡ Some driver.now }
    requires fits { DriverFits driver.now }
    ensures { OnOk result (text.new.items ≡ text.old.items
        ++ routine_lines accepted.now number 0 driver.now.routines) }
{
    let routines = driver.routines.as_slice();
    for (place, routine) in routines.iter().enumerate() {
        lines.clear();
        let certificate = accepted.cert(number, place as u8);
        lines.certificate(number, place as u8, routine.sort, certificate);
        text.extend_from_slice(lines.bytes())?;
    }
    Ok(())
}
