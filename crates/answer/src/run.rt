//! A run of the set of one file by another file, which is read for a run alone: a set that has to
//! be accepted and isn't is told without it.

ghost use Rattle.std.specs.Prelude.{◌≡◌, ◌+◌, ◌⊎◌, IfErr, IfOk, Ok};
ghost use Rattle.drvhost_devices.specs.Fault.{reads_failed};
ghost use Rattle.drvhost_devices.specs.Answer.{FileSays, IsToRun};
ghost use Rattle.drvhost_devices.specs.Device.{Bytes, CanCount, Says};
ghost use Rattle.drvhost_devices.specs.Ends.{Answers, HoldsRun};
ghost use Rattle.drvhost_devices.specs.Ready.{CanAnswer};
ghost use Rattle.answer.specs.Run.{IsBegun, IsByInput, IsRunOf, IsRunOfBytes, IsSetToRun};
ghost use Rattle.answer.specs.Run.{set_chosen};

use crate::content::Given;
use crate::deliver::{tell_unread, write_answer};
use crate::form::Form;
use crate::reading::said_in;
use crate::set::OnRun;
use drvhost_devices::device::{Sink, Source};
use drvhost_devices::fault::Fault;
use drvhost_devices::told::Told;
use drvhost_devices::transfer::read_whole;
use drvhost_devices::verification::Verification;
use image::DriverSet;
use model::abs::Rule;
use model::memory::OutOfMemory;
use std::alloc::{AllocError, Global};
use std::mem::drop;
use verifier::{Accepted, verify};

/// A set that is run: one that is accepted, or any.
#[derive(Drop)]
pub enum Chosen {
    Accepted(Accepted),
    Any(DriverSet),
}

impl Chosen {
    /// The set itself: of an accepted one a copy.
    fn into_set(self, alloc: Global) -> Result<DriverSet, OutOfMemory>
        ensures { IfOk result (λ set. set ≡ set_chosen self) }
    {
        match self {
            Chosen::Accepted(accepted) => accepted.set().copy(alloc),
            Chosen::Any(set) => Ok(set),
        }
    }
}

/// A job on a set that is run by another file, the names of both files, and the form in which it is
/// said.
#[derive(Drop)]
pub struct ToRun<'n, J, F> {
    pub job: J,
    pub form: F,
    /// Whether the set has to be accepted.
    pub verification: Verification,
    /// The name of the file of the set.
    pub set: &'n str,
    /// The name of the other file.
    pub input: &'n str,
}

/// What comes of the bytes of the file of a set.
#[derive(Drop)]
pub enum Begun {
    /// This set is to be run.
    Runs(Chosen),
    /// None is, and this is the answer.
    Kept(Told),
}

impl<'n, F: Form, J> ToRun<'n, J, F> {
    /// Looks at the bytes of the file of the set.
    ///
    /// # Errors
    ///
    /// When memory runs out.
    pub fn begin(&self, alloc: Global, bytes: &[u8]) -> Result<Begun, AllocError>
        ensures { IfOk result (IsBegun F.Form self.now.form self.now.set.now
            self.now.verification bytes.now) }
    {
        match said_in(alloc, bytes)? {
            Ok(found) => self.choose(alloc, bytes, found),
            Err(fault) => {
                let told = self.form.faulty(alloc, self.set, bytes, fault)?;
                Ok(Begun::Kept(told))
            }
        }
    }

    /// Looks at the set that they are.
    fn choose(&self, alloc: Global, bytes: &[u8], set: DriverSet) -> Result<Begun, AllocError>
        requires { FileSays bytes.now (Ok set) }
        ensures { IfOk result (IsBegun F.Form self.now.form self.now.set.now
            self.now.verification bytes.now) }
    {
        match self.verification {
            Verification::Required => self.judge(alloc, bytes, set),
            Verification::Skipped => Ok(Begun::Runs(Chosen::Any(set))),
        }
    }

    /// Judges it, since it has to be accepted.
    fn judge(&self, alloc: Global, bytes: &[u8], set: DriverSet) -> Result<Begun, AllocError>
        requires says { FileSays bytes.now (Ok set) }
        requires required { self.now.verification ≡ Verification.Required }
        ensures { IfOk result (IsBegun F.Form self.now.form self.now.set.now
            self.now.verification bytes.now) }
    {
        match verify(alloc, set) {
            Ok(accepted) => Ok(Begun::Runs(Chosen::Accepted(accepted))),
            Err((set, refusal)) => {
                if refusal.rule == Rule::Memory {
                    return Err(AllocError);
                }
                let told = self.form.refused(alloc, self.set, bytes, &set, &refusal)?;
                Ok(Begun::Kept(told))
            }
        }
    }
}

impl<'n, F: Form, J: OnRun<F>> ToRun<'n, J, F> {
    /// The answer for the bytes of both files.
    ///
    /// # Errors
    ///
    /// When memory runs out.
    pub fn answer(&self, alloc: Global, set: &[u8], input: &[u8]) -> Result<Told, AllocError>
        ensures { IfOk result (IsRunOf F.Form self.now.form self.now.set.now self.now.verification
            (λ bytes found. J.right self.now.job self.now.form self.now.set.now bytes found
            self.now.input.now) (Bytes set.now) (Bytes input.now)) }
    {
        match self.begin(alloc, set)? {
            Begun::Runs(chosen) => self.run(alloc, set, chosen, input),
            Begun::Kept(told) => Ok(told),
        }
    }

    /// The answer for a set that is run.
    fn run(
        &self,
        alloc: Global,
        bytes: &[u8],
        chosen: Chosen,
        input: &[u8],
    ) -> Result<Told, AllocError>
        ensures { IfOk result (J.right self.now.job self.now.form self.now.set.now bytes.now
            (set_chosen chosen) self.now.input.now input.now) }
    {
        let Ok(set) = chosen.into_set(alloc) else {
            return Err(AllocError);
        };
        let given = Given {
            name: self.set,
            bytes,
        };
        let by = Given {
            name: self.input,
            bytes: input,
        };
        self.job.on(&self.form, alloc, &given, set, &by)
    }

    /// The answer for what two sources have that are the files.
    ///
    /// # Errors
    ///
    /// When a read fails, or memory runs out.
    pub fn read<S: Source, P: Source>(
        &self,
        alloc: Global,
        set: &mut S,
        input: &mut P,
    ) -> Result<Told, Fault>
        requires set { CanCount (S.failures set.old) }
        requires input { CanCount (P.failures input.old) }
        ensures unread { (input.new ≡ input.old)
            ⊎ HoldsRun self.now.verification (S.supply set.old) }
        ensures told { IfOk result (IsRunOf F.Form self.now.form self.now.set.now
            self.now.verification (λ bytes found. J.right self.now.job self.now.form
            self.now.set.now bytes found self.now.input.now) (S.supply set.old)
            (P.supply input.old)) }
        ensures fault { IfErr result (λ fault. (fault ≡ Fault.Read) ⊎ (fault ≡ Fault.Memory)) }
        ensures reads { S.failures set.new + P.failures input.new
            ≡ (S.failures set.old + P.failures input.old) + reads_failed result }
    {
        let bytes = read_whole(alloc, set)?;
        self.read_for(alloc, bytes.as_slice(), input)
    }

    /// The same where the file of the set has these bytes.
    fn read_for<P: Source>(&self, alloc: Global, bytes: &[u8], input: &mut P) -> Result<Told, Fault>
        requires { CanCount (P.failures input.old) }
        ensures unread { (input.new ≡ input.old)
            ⊎ IsSetToRun self.now.verification bytes.now }
        ensures told { IfOk result (IsRunOfBytes F.Form self.now.form self.now.set.now
            self.now.verification (λ bytes found. J.right self.now.job self.now.form
            self.now.set.now bytes found self.now.input.now) bytes.now (P.supply input.old)) }
        ensures fault { IfErr result (λ fault. (fault ≡ Fault.Read) ⊎ (fault ≡ Fault.Memory)) }
        ensures reads { P.failures input.new ≡ P.failures input.old + reads_failed result }
    {
        match self.begin(alloc, bytes)? {
            Begun::Runs(chosen) => self.read_input(alloc, bytes, chosen, input),
            Begun::Kept(told) => Ok(told),
        }
    }

    /// The same where they are this set, which is run.
    fn read_input<P: Source>(
        &self,
        alloc: Global,
        bytes: &[u8],
        chosen: Chosen,
        input: &mut P,
    ) -> Result<Told, Fault>
        requires { CanCount (P.failures input.old) }
        ensures told { IfOk result (IsByInput (λ bytes found. J.right self.now.job
            self.now.form self.now.set.now bytes found self.now.input.now) (P.supply input.old)
            bytes.now (set_chosen chosen)) }
        ensures fault { IfErr result (λ fault. (fault ≡ Fault.Read) ⊎ (fault ≡ Fault.Memory)) }
        ensures reads { P.failures input.new ≡ P.failures input.old + reads_failed result }
    {
        match read_whole(alloc, input) {
            Ok(given) => Ok(self.run(alloc, bytes, chosen, given.as_slice())?),
            Err(fault) => {
                drop(chosen);
                Err(fault)
            }
        }
    }
}

/// Reads the file of a set, and the other one where the set is run, and writes what a job answers
/// for them. The answer is the exit status: that of what was written, 2 where a read or a write
/// failed, 3 where memory ran out, and then nothing was written.
pub fn deliver_run<F: Form, J: OnRun<F>, S: Source, P: Source, O: Sink, E: Sink>(
    run: &ToRun<'_, J, F>,
    alloc: Global,
    set: &mut S,
    input: &mut P,
    out: &mut O,
    err: &mut E,
) -> u8
    requires devices { CanAnswer O.Sink E.Sink (S.failures set.old) out.old err.old }
    requires input { CanCount (P.failures input.old) }
    ensures unread { (input.new ≡ input.old) ⊎ HoldsRun run.now.verification (S.supply set.old) }
    ensures answers { Answers (IsRunOf F.Form run.now.form run.now.set.now run.now.verification
        (λ bytes found. J.right run.now.job run.now.form run.now.set.now bytes found
        run.now.input.now) (S.supply set.old) (P.supply input.old))
        (S.failures set.old + P.failures input.old) (S.failures set.new + P.failures input.new)
        (O.failures out.old) (O.failures out.new) (O.contents out.old) (O.contents out.new)
        (Says (E.failures err.old) (E.failures err.new) (E.contents err.old) (E.contents err.new))
        result }
{
    match run.read(alloc, set, input) {
        Ok(told) => write_answer(Ok(told), out, err),
        Err(fault) => tell_unread(fault, err),
    }
}
