//! The instructions of a routine while its driver is read. Those before the first one that uses a
//! name are kept as they will be in the set, and none of them is moved again. Where the routine is
//! closed, those behind them come to them up to the first one that names a queue or a routine.

ghost use Rattle.std.specs.Prelude.{◌≡◌, ◌++◌, [], ◌∷◌, length, map, IfOk, OnOk};
ghost use Rattle.asm.specs.Bare.{bare_step, is_bare, is_nameless};
ghost use Rattle.asm.specs.Outline.{missed_from, label_resolved};

use crate::draft::{Linked, Step};
use crate::link::linked;
use indexmap::IndexSet;
use model::instr::Instr;
use std::alloc::{AllocError, Global};
use std::marker::Model;
use std::mem;
use text::piece::Piece;

/// The instructions of the open routine. Contracts see all of them as steps.
#[derive(Drop)]
pub struct OpenCode<'a> {
    /// Those before the first that uses a name.
    bare: Vec<Instr>,
    /// That one, and those behind it.
    rest: Vec<Step<'a>>,
}

impl<'a> Model for OpenCode<'a> {
    ghost use Rattle.std.specs.Prelude.{◌++◌, List, map};
    ghost use Rattle.asm.specs.Bare.{bare_step, AreBare};
    ghost use Rattle.asm.specs.declared.draft.Step.{Step};

    ghost Value = { List Step };

    ghost view = { λ code. map bare_step code.bare.items ++ code.rest.items };

    ghost invariant = { λ code. AreBare code.bare.items };
}

/// The instructions of a closed routine. Contracts see all of them as linked.
#[derive(Drop)]
pub struct ClosedCode {
    /// Those before the first that names a queue or a routine.
    pub(crate) done: Vec<Instr>,
    /// That one, and those behind it.
    pub(crate) rest: Vec<Linked>,
}

impl Model for ClosedCode {
    ghost use Rattle.std.specs.Prelude.{◌++◌, List, map};
    ghost use Rattle.asm.specs.Bare.{bare_link, AreNameless};
    ghost use Rattle.asm.specs.declared.draft.Linked.{Linked};

    ghost Value = { List Linked };

    ghost view = { λ code. map bare_link code.done.items ++ code.rest.items };

    ghost invariant = { λ code. AreNameless code.done.items };
}

impl ClosedCode {
    /// Adds an instruction whose label is known, with the places of the names that it uses.
    #[inline(always)]
    #[tactic(auto, using(crate::proofs::Bare::one_more_nameless, crate::proofs::Bare::nameless_pushed))]
    pub fn push(
        &mut self,
        instr: Instr,
        call: Option<usize>,
        queue: Option<usize>,
    ) -> Result<(), AllocError>
        ensures { OnOk result (self.new
            ≡ self.old ++ (record { instr = instr; call = call; queue = queue }) ∷ []) }
    {
        if self.rest.is_empty() && call.is_none() && queue.is_none() && is_nameless(&instr) {
            self.done.push(instr)?;
            return Ok(());
        }
        self.rest.push(Linked { instr, call, queue })?;
        Ok(())
    }
}

impl<'a> OpenCode<'a> {
    /// No instruction.
    pub fn new(alloc: Global) -> OpenCode<'a>
        ensures empty { result ≡ [] }
    {
        OpenCode {
            bare: Vec::new(alloc),
            rest: Vec::new(alloc),
        }
    }

    /// How many there are.
    pub fn len(&self) -> usize
        ensures { result ≡ length self.now }
    {
        self.bare.len() + self.rest.len()
    }

    /// Adds an instruction, with the names that it uses.
    pub fn push(&mut self, step: Step<'a>) -> Result<(), AllocError>
        ensures { OnOk result (self.new ≡ self.old ++ step.entry ∷ []) }
    {
        self.rest.push(step)?;
        Ok(())
    }

    /// Adds an instruction that uses no name.
    #[tactic(auto, using(crate::proofs::Bare::one_more_bare, crate::proofs::Bare::bare_pushed))]
    pub fn push_bare(&mut self, instr: Instr) -> Result<(), AllocError>
        ensures { OnOk result (self.new ≡ self.old ++ bare_step instr ∷ []) }
    {
        if self.rest.is_empty() && is_bare(&instr) {
            self.bare.push(instr)?;
            return Ok(());
        }
        self.rest.push(Step {
            instr,
            label: None,
            call: None,
            queue: None,
        })?;
        Ok(())
    }

    /// Takes all of them, each with the position of the label that it jumps to, and the earliest
    /// line that uses a label which isn't there, or the one found already if that is earlier.
    #[tactic(auto, using(crate::proofs::Bare::all_nameless, crate::proofs::Bare::bare_missed))]
    pub fn take_linked(
        &mut self,
        alloc: Global,
        labels: &IndexSet<Piece<'_>>,
        positions: &[u16],
        found: Option<u64>,
    ) -> Result<Closed, AllocError>
        ensures linked { IfOk result
            (λ closed. closed.code ≡ map (label_resolved labels.now.keys positions.now) self.old) }
        ensures missed { IfOk result
            (λ closed. closed.missed ≡ missed_from labels.now.keys found self.old) }
        ensures taken { OnOk result (self.new ≡ []) }
    {
        let mut done = mem::replace(&mut self.bare, Vec::new(alloc));
        done.reserve(self.rest.len())?;
        let code = ClosedCode {
            done,
            rest: Vec::new(alloc),
        };
        let closed = linked(labels, positions, found, code, &self.rest)?;
        self.rest.clear();
        Ok(closed)
    }
}

/// What a routine is when it is closed: its instructions, and the earliest line that uses a label
/// which isn't there, if one does.
#[derive(Drop)]
pub struct Closed {
    pub code: ClosedCode,
    pub missed: Option<u64>,
}

/// Whether an instruction names nothing.
pub fn is_bare(instr: &Instr) -> bool
    ensures { result ≡ is_bare instr.now }
{
    match *instr {
        Instr::JumpIfZero(..)
        | Instr::JumpIfLess(..)
        | Instr::Jump(_)
        | Instr::Insert(..)
        | Instr::Remove(..)
        | Instr::Unlink(..)
        | Instr::Arm(..)
        | Instr::Disarm(..)
        | Instr::IfCancel(..)
        | Instr::Take(..)
        | Instr::Call(..)
        | Instr::IfPending(..) => false,
        _ => true,
    }
}

/// Whether an instruction names no queue and no routine.
pub fn is_nameless(instr: &Instr) -> bool
    ensures { result ≡ is_nameless instr.now }
{
    !matches!(
        *instr,
        Instr::Insert(..) | Instr::Remove(..) | Instr::Unlink(..) | Instr::Arm(..) | Instr::Call(..)
    )
}
