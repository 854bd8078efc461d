//! What gathers while a script is served.

ghost use Rattle.std.specs.Prelude.{◌≡◌, ◌≢◌, ◌+◌, [], IfErr, IfOk, OnOk};
ghost use Rattle.drvhost_devices.specs.Device.{CanCount};
ghost use Rattle.drvhost_devices.specs.Fault.{ReadsSet, reads_failed};
ghost use Rattle.answer_runs.specs.Hosting.{IsBlank};
ghost use Rattle.answer_runs.specs.Served.{TellsOfRing, rings_in};
ghost use Rattle.tell_audit.specs.Findings.{ringed_threads};
ghost use Rattle.verifier_warnings.specs.Warnings.{AreWarnings};

use answer::origin::origin_of;
use checked::Checked;
use drvhost_devices::device::Source;
use drvhost_devices::fault::Fault;
use drvhost_devices::reading::{set_of, source_of};
use drvhost_devices::transfer::read_whole;
use image::DriverSet;
use report::lines::Lines;
use std::alloc::{AllocError, Global};
use tell_audit::findings::ringed_threads;
use tell_changes::ring_words;
use verifier::Accepted;
use verifier_warnings::warnings;

/// What gathers while a script is served.
#[derive(Drop)]
pub(crate) struct Page {
    /// The bytes that the set was read from.
    bytes: Vec<u8>,
    /// Lines that aren't written yet.
    pub(crate) lines: Lines,
    /// The threads that wait for each other in a ring, where workers have ended.
    pub(crate) ringed: Vec<u8>,
    /// What is told of them.
    pub(crate) words: Vec<u8>,
}

impl Page {
    /// One on which nothing has gathered.
    pub(crate) fn new(alloc: Global) -> Result<Page, AllocError>
        ensures { IfOk result IsBlank }
    {
        Ok(Page {
            bytes: Vec::new(alloc),
            lines: Lines::new(alloc)?,
            ringed: Vec::new(alloc),
            words: Vec::new(alloc),
        })
    }

    /// The set that the bytes of a source name, which are kept.
    pub(crate) fn read_set<S: Source>(
        &mut self,
        alloc: Global,
        source: &mut S,
    ) -> Result<DriverSet, Fault>
        requires source { CanCount (S.failures source.old) }
        requires empty { IsBlank self.old }
        ensures set { ReadsSet (S.supply source.old) result }
        ensures reads { S.failures source.new ≡ S.failures source.old + reads_failed result }
        ensures empty { IsBlank self.new }
    {
        self.bytes = read_whole(alloc, source)?;
        set_of(alloc, self.bytes.as_slice())
    }

    /// The warnings of an accepted set, in the terms of the bytes that it was read from.
    pub(crate) fn warnings(&self, alloc: Global, accepted: &Accepted) -> Result<Vec<u8>, Fault>
        ensures warnings { IfOk result (λ words. AreWarnings accepted.now words.items) }
        ensures fault { IfErr result (λ fault. fault ≡ Fault.Memory) }
    {
        Ok(warnings(alloc, origin_of(self.bytes.as_slice()), accepted)?.into_bytes())
    }

    /// Notes which threads wait in a ring in what stands after a history, with what is told of
    /// them.
    pub(crate) fn note_standing(
        &mut self,
        alloc: Global,
        standing: &Option<Checked>,
    ) -> Result<(), Fault>
        requires { IsBlank self.old }
        ensures lines { self.new.lines ≡ self.old.lines }
        ensures ringed { OnOk result (self.new.ringed.items ≡ rings_in standing.now) }
        ensures words { OnOk result
            (TellsOfRing self.new.ringed.items self.new.words.items) }
        ensures fault { IfErr result (λ fault. fault ≡ Fault.Memory) }
    {
        match standing {
            Some(machine) => self.note_rings(alloc, machine),
            None => Ok(()),
        }
    }

    /// Notes which threads of a machine wait in a ring, with what is told of them.
    fn note_rings(&mut self, alloc: Global, machine: &Checked) -> Result<(), Fault>
        requires { IsBlank self.old }
        ensures lines { self.new.lines ≡ self.old.lines }
        ensures ringed { OnOk result
            (self.new.ringed.items ≡ ringed_threads machine.now.set machine.now.world) }
        ensures words { OnOk result
            (TellsOfRing self.new.ringed.items self.new.words.items) }
        ensures fault { IfErr result (λ fault. fault ≡ Fault.Memory) }
    {
        let ringed = ringed_threads(alloc, machine)?;
        self.words = words_on(alloc, self.bytes.as_slice(), machine, ringed.as_slice())?;
        self.ringed = ringed;
        Ok(())
    }
}

/// What is told of threads that wait in a ring, in the terms of the bytes that the set of their
/// machine was read from.
fn words_on(alloc: Global, bytes: &[u8], machine: &Checked, ringed: &[u8]) -> Result<Vec<u8>, Fault>
    ensures words { IfOk result (λ words. TellsOfRing ringed.now words.items) }
    ensures fault { IfErr result (λ fault. fault ≡ Fault.Memory) }
{
    if ringed.is_empty() {
        return Ok(Vec::new(alloc));
    }
    let text = source_of(alloc, bytes, machine.set())?;
    let words = ring_words(alloc, text.as_slice(), machine, ringed)?;
    Ok(some_line(words.into_bytes())?)
}

/// Words that are a line at least, an empty one where there are none.
fn some_line(mut words: Vec<u8>) -> Result<Vec<u8>, AllocError>
    ensures { IfOk result (λ line. line.items ≢ []) }
{
    if words.is_empty() {
        words.push(b'\n')?;
    }
    Ok(words)
}
