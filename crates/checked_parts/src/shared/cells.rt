//! The number cells of devices.

ghost use Rattle.std.specs.Prelude.{◌≡◌, ◌<◌, slice_get};
ghost use Rattle.model.specs.declared.limits.TheConstants.{MAX_INSTRUCTIONS};
ghost use Rattle.model.specs.Effect.{cell_of};

use super::Shared;
use crate::{Ran, Runner, number_in, wrong_at};
use driver_set::{Cell, Register};
use model::event::{Bug, BugCheck, OfDevice, Reply, Subject};
use model::world::{Activation, Value};

/// The bug check that a paged cell of the activation's device is touched at DISPATCH_LEVEL.
fn paged_bug(a: &Activation, cell: Cell) -> Reply
    ensures { let subject = Subject.Cell (cell_of a.now cell) in
        result ≡ Reply.Bug (record { check = BugCheck.IrqlNotLessOrEqual; subject = subject }) }
{
    Reply::Bug(Bug {
        check: BugCheck::IrqlNotLessOrEqual,
        subject: Subject::Cell(OfDevice {
            device: a.device,
            number: cell.index() as u8,
        }),
    })
}

impl Shared {
    ghost use Rattle.checked_parts.specs.Ran.{Leaves, LeavesOn};
    ghost use Rattle.model.specs.Effect.{load_effect, load_paged_effect, store_effect};
    ghost use Rattle.model.specs.Effect.{store_paged_effect};
    ghost use Rattle.model.specs.World.{register, number_in as number_in_of};

    /// `load r c`: the register becomes the number in a cell.
    pub fn load(&self, r: Register, cell: Cell, a: &mut Activation) -> Ran
        requires { a.old.position < MAX_INSTRUCTIONS }
        ensures { let cells = slice_get self.now.cells a.old.device in
            Leaves self.now a.old (load_effect self.now a.old r cell cells) self.now a.new result }
    {
        let Some(cells) = self.cell_list.get(a.device as usize) else {
            return Ran::Stays(wrong_at(a));
        };
        a.registers[r.index()] = Value::Num(cells.plain[cell.index()]);
        a.position += 1;
        Ran::Stays(Reply::Stepped)
    }

    /// `loadp r p`: the register becomes the number in a paged cell.
    pub fn load_paged(&self, runner: Runner, r: Register, cell: Cell, a: &mut Activation) -> Ran
        requires { a.old.position < MAX_INSTRUCTIONS }
        ensures { let cells = slice_get self.now.cells a.old.device in
            let loaded = load_paged_effect self.now a.old r cell cells in
            LeavesOn runner self.now a.old loaded self.now a.new result }
    {
        let number = match self.cell_list.get(a.device as usize) {
            Some(_) if self.is_raised(runner) => return Ran::Stays(paged_bug(a, cell)),
            Some(cells) => cells.paged[cell.index()],
            None => return Ran::Stays(wrong_at(a)),
        };
        a.registers[r.index()] = Value::Num(number);
        a.position += 1;
        Ran::Stays(Reply::Stepped)
    }

    /// `store c r`: the cell becomes the number in the register.
    pub fn store(&mut self, cell: Cell, r: Register, a: &mut Activation) -> Ran
        requires { a.old.position < MAX_INSTRUCTIONS }
        ensures { let number = number_in_of (register a.old r) in
            let cells = slice_get self.old.cells a.old.device in
            let stored = store_effect self.old a.old cell number cells in
            Leaves self.old a.old stored self.new a.new result }
    {
        let Some(number) = number_in(a.registers[r.index()]) else {
            return Ran::Stays(wrong_at(a));
        };
        if a.device as usize >= self.cell_list.len() {
            return Ran::Stays(wrong_at(a));
        }
        let cells = &mut self.cell_list[a.device as usize];
        cells.plain[cell.index()] = number;
        a.position += 1;
        Ran::Stays(Reply::Stepped)
    }

    /// `storep p r`: the paged cell becomes the number in the register.
    pub fn store_paged(
        &mut self,
        runner: Runner,
        cell: Cell,
        r: Register,
        a: &mut Activation,
    ) -> Ran
        requires { a.old.position < MAX_INSTRUCTIONS }
        ensures { let number = number_in_of (register a.old r) in
            let cells = slice_get self.old.cells a.old.device in
            let stored = store_paged_effect self.old a.old cell number cells in
            LeavesOn runner self.old a.old stored self.new a.new result }
    {
        let Some(number) = number_in(a.registers[r.index()]) else {
            return Ran::Stays(wrong_at(a));
        };
        if a.device as usize >= self.cell_list.len() {
            return Ran::Stays(wrong_at(a));
        }
        if self.is_raised(runner) {
            return Ran::Stays(paged_bug(a, cell));
        }
        let cells = &mut self.cell_list[a.device as usize];
        cells.paged[cell.index()] = number;
        a.position += 1;
        Ran::Stays(Reply::Stepped)
    }
}
