//! The text read line by line, and the set that it names.

ghost use Rattle.std.specs.Prelude.{◌≡◌, ◌⊎◌, ◌<◌, ◌^◌, ℕ, length, IfOk, MatchResult, OnOk};
ghost use Rattle.std.specs.Prelude.{Err, Ok, Some};
ghost use Rattle.asm_line.specs.Plain.{plain_line};
ghost use Rattle.asm.specs.Outline.{draft_misfit, nothing_read, IsOrderly};
ghost use Rattle.asm.specs.declared.draft.Place.{Place};
ghost use Rattle.asm.specs.Plain.{IsPlainOn};
ghost use Rattle.asm.specs.Drafting.{read_on, draft_reading, draft_resolved};
ghost use Rattle.asm.specs.Reading.{kind_of, memory, set_in, IsFaultOf, IsNamed};

use crate::draft::{Draft, Place};
use crate::fault::{AsmFault, AsmKind};
use asm_line::{LineFault, comment_line, plain_line, read_other_line};
use driver_set::DriverSet;
use model::instr::Instr;
use model::limits::MAX_INSTRUCTIONS;
use std::alloc::{AllocError, Global};
use std::mem;
use text::cut::Lines;

/// What reading a line comes to: its fault, if it has one, or that memory ran out.
type LineRead = Result<Result<(), AsmKind>, AllocError>;

/// The driver set that a text names.
///
/// # Errors
///
/// The text's first fault. Any text may be answered by `Memory`, which is told where a growth was
/// refused.
pub fn assemble(alloc: Global, text: &[u8]) -> Result<DriverSet, AsmFault>
    ensures { MatchResult result (λ set. IsNamed text.now set)
        (λ fault. (fault ≡ memory) ⊎ IsFaultOf text.now fault) }
{
    match set_in(alloc, text) {
        Ok(answer) => answer,
        Err(AllocError) => Err(AsmFault {
            line: 0,
            kind: AsmKind::Memory,
        }),
    }
}

/// The set that a text names, or its first fault.
fn set_in(alloc: Global, text: &[u8]) -> Result<Result<DriverSet, AsmFault>, AllocError>
    ensures { IfOk result (λ answer. answer ≡ set_in text.now) }
{
    let mut draft = Draft::new(alloc);
    draft.answer(alloc, text)
}

impl<'a> Draft<'a> {
    /// The set that the text names, or its first fault, where nothing was read yet.
    #[tactic(auto, using(crate::proofs::Declared::Answer::draft_read, crate::proofs::Declared::Answer::draft_refused))]
    fn answer(
        &mut self,
        alloc: Global,
        text: &'a [u8],
    ) -> Result<Result<DriverSet, AsmFault>, AllocError>
        requires { self.old ≡ nothing_read }
        ensures { IfOk result (λ answer. answer ≡ set_in text.now) }
    {
        match self.read_all(alloc, Lines::of(text))? {
            Ok(()) => Ok(self.resolved(alloc)),
            Err(fault) => Ok(Err(fault)),
        }
    }

    /// Reads lines to the end of the text, the first of which is line 1.
    fn read_all(
        &mut self,
        alloc: Global,
        mut left: Lines<'a>,
    ) -> Result<Result<(), AsmFault>, AllocError>
        requires orderly { IsOrderly self.old }
        requires few { length left < 2 ^ 63 }
        ensures read { IfOk result
            (λ answer. MatchResult answer (λ _. draft_reading self.old 1 left.entry ≡ Ok self.new)
            (λ fault. draft_reading self.old 1 left.entry ≡ Err fault)) }
        ensures closed { IfOk result (λ answer. OnOk answer (self.new.place ≡ Place.Outside)) }
        ensures orderly { IfOk result (λ answer. OnOk answer (IsOrderly self.new)) }
    {
        let mut line: u64 = 1;
        #[tactic(auto, using(crate::proofs::Turns::line_read, crate::proofs::Turns::line_refused))]
        while let Some(raw) = left.next() {
            if let Err(kind) = self.read_on(alloc, line, raw)? {
                return Ok(Err(AsmFault { line, kind }));
            }
            line += 1;
        }
        match self.place {
            Place::Outside => Ok(Ok(())),
            _ => Ok(Err(AsmFault {
                line,
                kind: AsmKind::Unclosed,
            })),
        }
    }

    /// Reads one line, whose number is `number`.
    #[tactic(auto, using(crate::proofs::Plain::plain_read, crate::proofs::Plain::plain_refused, crate::proofs::Plain::plain_orderly))]
    fn read_on(&mut self, alloc: Global, number: u64, raw: &'a [u8]) -> LineRead
        requires { IsOrderly self.old }
        ensures read { IfOk result
            (λ answer. MatchResult answer (λ _. read_on self.old number raw.now ≡ Ok self.new)
            (λ kind. read_on self.old number raw.now ≡ Err kind)) }
        ensures orderly { IfOk result (λ answer. OnOk answer (IsOrderly self.new)) }
    {
        match plain_line(raw) {
            Some(instr) => self.read_plain(instr),
            None => self.read_unplain(alloc, number, raw),
        }
    }

    /// Reads one line of another kind, whose number is `number`. A comment says nothing, and is
    /// weighed by its bytes alone.
    #[tactic(auto, using(crate::proofs::Plain::blank_read))]
    fn read_unplain(&mut self, alloc: Global, number: u64, raw: &'a [u8]) -> LineRead
        requires { IsOrderly self.old }
        ensures read { IfOk result
            (λ answer. MatchResult answer (λ _. read_on self.old number raw.now ≡ Ok self.new)
            (λ kind. read_on self.old number raw.now ≡ Err kind)) }
        ensures orderly { IfOk result (λ answer. OnOk answer (IsOrderly self.new)) }
    {
        match comment_line(raw) {
            Some(Ok(())) => Ok(Ok(())),
            Some(Err(fault)) => Ok(Err(kind_of(fault))),
            None => self.read_other(alloc, number, raw),
        }
    }

    /// Reads a line of an instruction that has no label and uses no name: most lines are such ones,
    /// and what they say goes where it stays at once.
    fn read_plain(&mut self, instr: Instr) -> LineRead
        ensures { IfOk result (λ answer. MatchResult answer (λ _. IsPlainOn self.old instr self.new)
            (λ kind. draft_misfit self.old (plain_line instr) ≡ Some kind)) }
    {
        if !matches!(self.place, Place::InRoutine) {
            return Ok(Err(AsmKind::UnknownWord));
        }
        if self.steps.len() >= MAX_INSTRUCTIONS {
            return Ok(Err(AsmKind::OverLimit));
        }
        self.steps.push_bare(instr)?;
        Ok(Ok(()))
    }

    /// Reads one line that isn't of these kinds, whose number is `number`.
    fn read_other(&mut self, alloc: Global, number: u64, raw: &'a [u8]) -> LineRead
        requires { IsOrderly self.old }
        ensures read { IfOk result
            (λ answer. MatchResult answer (λ _. read_on self.old number raw.now ≡ Ok self.new)
            (λ kind. read_on self.old number raw.now ≡ Err kind)) }
        ensures orderly { IfOk result (λ answer. OnOk answer (IsOrderly self.new)) }
    {
        let line = match read_other_line(raw) {
            Ok(line) => line,
            Err(fault) => return Ok(Err(kind_of(fault))),
        };
        if let Some(kind) = self.misfit(&line) {
            return Ok(Err(kind));
        }
        self.note(alloc, number, &line)?;
        Ok(Ok(()))
    }

    /// The set that was read, unless a line uses an unknown name. It is taken from the draft, which
    /// its caller owns: so nothing else of it has to be dropped here.
    #[tactic(auto, using(crate::proofs::Orderly::Lines::sound))]
    fn resolved(&mut self, alloc: Global) -> Result<DriverSet, AsmFault>
        requires orderly { IsOrderly self.old }
        requires closed { self.old.place ≡ Place.Outside }
        ensures { result ≡ draft_resolved self.old self.old.unknown }
    {
        match self.unknown {
            Some(line) => Err(AsmFault {
                line,
                kind: AsmKind::UnknownName,
            }),
            None => {
                let drivers = mem::replace(&mut self.drivers, Vec::new(alloc));
                let devices = mem::replace(&mut self.devices, Vec::new(alloc));
                Ok(DriverSet::of_sound(drivers, devices))
            }
        }
    }
}

/// The kind of fault of bytes that are no line.
fn kind_of(fault: LineFault) -> AsmKind
    ensures { result ≡ kind_of fault }
{
    match fault {
        LineFault::Lex => AsmKind::Lex,
        LineFault::UnknownWord => AsmKind::UnknownWord,
    }
}
