//! An answer in memory.

ghost use Rattle.std.specs.Prelude.{◌≡◌, ℕ, IfOk, OnOk};
ghost use Rattle.drvhost_devices.specs.Device.{Says};
ghost use Rattle.drvhost_devices.specs.Ends.{Answers};
ghost use Rattle.drvhost_devices.specs.Ready.{CanWrite};
ghost use Rattle.drvhost_devices.specs.Told.{Collects, bytes_of, joined};

use crate::device::{Failed, Sink, Writer};
use crate::fault::say;
use crate::transfer::write_whole;
use report::fault::WRITE_FAILED;
use std::alloc::AllocError;
use std::marker::Model;

/// What is answered: the exit status, and what goes to the two streams. Contracts see it as the
/// answer.
#[derive(Drop)]
pub struct Told {
    exit: u8,
    written: Vec<u8>,
    errors: Vec<u8>,
}

impl Model for Told {
    ghost use Rattle.drvhost_devices.specs.Answer.{Answer};

    ghost Value = { Answer };

    ghost view = { λ t. record { status = t.exit; output = t.written.items; told = t.errors.items } };
}

impl Told {
    /// An answer of this exit status.
    pub fn of(exit: u8, written: Vec<u8>, errors: Vec<u8>) -> Told
        ensures { result ≡ record { status = exit; output = written.items; told = errors.items } }
    {
        Told {
            exit,
            written,
            errors,
        }
    }

    /// The exit status.
    pub fn status(&self) -> u8
        ensures { result ≡ self.now.status }
    {
        self.exit
    }

    /// What goes to the standard output.
    pub fn output(&self) -> &[u8]
        ensures { result.now ≡ self.now.output }
    {
        self.written.as_slice()
    }

    /// What goes to the standard error output.
    pub fn told(&self) -> &[u8]
        ensures { result.now ≡ self.now.told }
    {
        self.errors.as_slice()
    }

    /// The same answer, but for what goes to the standard output.
    pub fn with_output(self, written: Vec<u8>) -> Told
        ensures { result ≡ record self { output = written.items } }
    {
        Told { written, ..self }
    }

    /// Adds an answer behind it: the greater exit status is that of both.
    ///
    /// # Errors
    ///
    /// When memory runs out.
    pub fn add(&mut self, other: &Told) -> Result<(), AllocError>
        ensures { OnOk result (self.new ≡ joined self.old other.now) }
    {
        if self.exit < other.exit {
            self.exit = other.exit;
        }
        self.written.extend_from_slice(other.output())?;
        self.errors.extend_from_slice(other.told())
    }

    /// All its bytes, those of the output and behind them those of the error output.
    ///
    /// # Errors
    ///
    /// When memory runs out.
    pub fn into_bytes(self) -> Result<Vec<u8>, AllocError>
        ensures { IfOk result (λ bytes. bytes.items ≡ bytes_of self) }
    {
        let Told {
            exit: _,
            written,
            errors,
        } = self;
        if written.is_empty() {
            return Ok(errors);
        }
        let mut bytes = written;
        bytes.extend_from_slice(errors.as_slice())?;
        Ok(bytes)
    }
}

/// The exit status where memory ran out.
const NO_MEMORY: u8 = 3;

/// What a call answered with this exit status, of which so many reads failed, and which wrote to
/// writers in memory. What fails in memory is a growth alone.
///
/// # Errors
///
/// When memory ran out, or a read or a write failed.
pub fn collected(
    exit: u8,
    reads: u64,
    output: Writer<Vec<u8>>,
    errors: Writer<Vec<u8>>,
) -> Result<Told, AllocError>
    ensures { IfOk result (Collects exit reads
        (⟦<Writer<Vec<u8>> as Sink>⟧.failures output) (⟦<Writer<Vec<u8>> as Sink>⟧.contents output)
        (⟦<Writer<Vec<u8>> as Sink>⟧.failures errors)
        (⟦<Writer<Vec<u8>> as Sink>⟧.contents errors)) }
{
    if exit == NO_MEMORY || reads > 0 || output.failures() > 0 || errors.failures() > 0 {
        return Err(AllocError);
    }
    Ok(Told {
        exit,
        written: output.into_inner(),
        errors: errors.into_inner(),
    })
}

/// Writes an answer to its writers. The answer is the exit status: its own, or 2 where the output
/// takes but a beginning, which is told.
pub fn deliver<O: Sink, E: Sink>(told: &Told, out: &mut O, err: &mut E) -> u8
    requires { CanWrite O.Sink E.Sink out.old err.old }
    ensures { (reads : ℕ) → Answers (λ answer. answer ≡ told.now) reads reads
        (O.failures out.old) (O.failures out.new) (O.contents out.old) (O.contents out.new)
        (Says (E.failures err.old) (E.failures err.new) (E.contents err.old) (E.contents err.new))
        result }
{
    match write_whole(out, told.output()) {
        Ok(()) => {
            say(err, told.told());
            told.status()
        }
        Err(Failed) => {
            say(err, WRITE_FAILED.as_bytes());
            2
        }
    }
}
