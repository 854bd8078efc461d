//! Which numbers can reach a jump: two worlds that differ only in others go on alike. Each routine
//! is gone through backwards, again and again until no more is found to matter.

use crate::registers::Registers;
use driver_set::{DriverSet, Instr};
use model::cell::Cell;
use model::instr::Field;
use model::limits::CELLS;
use model::set::Driver;
use model::world::Activation;
use std::alloc::{AllocError, Global};

/// The cells of a driver's devices whose numbers can reach a jump.
#[derive(Clone, Copy)]
pub struct Cells {
    pub plain: [bool; CELLS],
    pub paged: [bool; CELLS],
}

/// The fields of packets whose numbers can.
#[derive(Clone, Copy)]
pub struct Fields {
    pub argument: bool,
    pub information: bool,
    /// More was found to matter, since this was last cleared.
    grew: bool,
}

/// What of a driver matters.
#[derive(Drop)]
struct Reached {
    cells: Cells,
    /// By routine and position, the registers whose numbers can reach a jump from there.
    routines: Vec<Vec<Registers>>,
}

/// What of a driver set matters.
#[derive(Drop)]
pub struct Reaching {
    drivers: Vec<Reached>,
    fields: Fields,
}

impl Reaching {
    /// What of a set matters.
    pub(crate) fn of(alloc: Global, set: &DriverSet) -> Result<Reaching, AllocError> {
        let mut reaching = Reaching {
            drivers: nothing_reached(alloc, set.drivers())?,
            fields: Fields {
                argument: false,
                information: false,
                grew: false,
            },
        };
        for _round in 0..u64::MAX {
            reaching.go_through(set.drivers());
            if !reaching.fields.grew {
                break;
            }
        }
        Ok(reaching)
    }

    /// Goes once through all routines.
    fn go_through(&mut self, drivers: &[Driver]) {
        self.fields.grew = false;
        for number in 0..drivers.len() {
            if let (Some(driver), Some(reached)) = (
                drivers.get(number),
                self.drivers.get_mut(number),
            ) {
                go_through_driver(reached, &mut self.fields, driver);
            }
        }
    }

    /// The fields of packets that matter.
    pub fn fields(&self) -> Fields {
        self.fields
    }

    /// The cells of a driver's devices that matter.
    pub fn cells(&self, driver: u8) -> Option<Cells> {
        match self.drivers.get(driver as usize) {
            Some(reached) => Some(reached.cells),
            None => None,
        }
    }

    /// Whether a routine of a driver, with this code, reads the argument of a packet into a
    /// register that matters.
    pub(crate) fn reads_argument(&self, driver: u8, routine: u8, code: &[Instr]) -> bool {
        let Some(reached) = self.drivers.get(driver as usize) else {
            return false;
        };
        match reached.routines.get(routine as usize) {
            Some(places) => reads_argument(places.as_slice(), code),
            None => false,
        }
    }

    /// The registers that matter where an activation stands.
    pub fn registers(&self, a: &Activation) -> Registers {
        let Some(reached) = self.drivers.get(a.driver as usize) else {
            return Registers::ALL;
        };
        match reached.routines.get(a.routine as usize) {
            Some(places) => at(places.as_slice(), a.position as usize),
            None => Registers::ALL,
        }
    }
}

/// Whether code reads the argument of a packet into a register that matters, where these do.
fn reads_argument(places: &[Registers], code: &[Instr]) -> bool {
    for position in 0..code.len() {
        if let Some(Instr::Get(register, _, Field::Argument)) = code.get(position) {
            if at(places, position.saturating_add(1)).has(*register) {
                return true;
            }
        }
    }
    false
}

/// Nothing yet of each driver.
fn nothing_reached(alloc: Global, drivers: &[Driver]) -> Result<Vec<Reached>, AllocError> {
    let mut reached = Vec::new(alloc);
    for driver in drivers {
        reached.push(Reached {
            cells: Cells {
                plain: [false; CELLS],
                paged: [false; CELLS],
            },
            routines: no_registers(alloc, driver)?,
        })?;
    }
    Ok(reached)
}

/// No registers at each position of each routine.
fn no_registers(alloc: Global, driver: &Driver) -> Result<Vec<Vec<Registers>>, AllocError> {
    let mut routines = Vec::new(alloc);
    for routine in driver.routines.as_slice() {
        let length = routine.code.as_slice().len();
        routines.push(vec![in alloc; Registers::NONE; length]?)?;
    }
    Ok(routines)
}

/// Goes once through the routines of a driver.
fn go_through_driver(reached: &mut Reached, fields: &mut Fields, driver: &Driver) {
    let routines = driver.routines.as_slice();
    for number in 0..routines.len() {
        if let (Some(routine), Some(places)) = (
            routines.get(number),
            reached.routines.get_mut(number),
        ) {
            go_through_code(places, &mut reached.cells, fields, routine.code.as_slice());
        }
    }
}

/// Goes once through a routine, from its last instruction to its first.
fn go_through_code(
    places: &mut Vec<Registers>,
    cells: &mut Cells,
    fields: &mut Fields,
    code: &[Instr],
) {
    for back in 0..code.len() {
        let position = code.len() - 1 - back;
        if let Some(instr) = code.get(position) {
            let behind = behind(places.as_slice(), code, instr, position);
            let needed = needed_before(instr, behind, cells, fields);
            keep(places, position, needed, fields);
        }
    }
}

/// The registers that matter at a position: none behind the last one.
fn at(places: &[Registers], position: usize) -> Registers {
    places.get(position).copied().unwrap_or(Registers::NONE)
}

/// The registers that matter behind an instruction, wherever the routine goes on.
fn behind(places: &[Registers], code: &[Instr], instr: &Instr, position: usize) -> Registers {
    let after = at(places, position.saturating_add(1));
    let next = match *instr {
        Instr::Jump(_) | Instr::Ret(_) => Registers::NONE,
        Instr::End => after.and(at_loops(places, code)),
        Instr::Const(_, _) | Instr::Move(_, _) | Instr::Clear(_) => after,
        Instr::Add(_, _) | Instr::Subtract(_, _) => after,
        Instr::JumpIfZero(_, _) | Instr::JumpIfLess(_, _, _) | Instr::Loop(_) => after,
        Instr::Load(_, _) | Instr::Store(_, _) => after,
        Instr::LoadPaged(_, _) | Instr::StorePaged(_, _) => after,
        Instr::Get(_, _, _) | Instr::Put(_, _) => after,
        Instr::Mark(_) | Instr::Pass(_) | Instr::Call(_, _) | Instr::Complete(_, _) => after,
        Instr::Acquire(_) | Instr::Release(_) => after,
        Instr::AcquireCancel | Instr::ReleaseCancel => after,
        Instr::Insert(_, _) | Instr::Remove(_, _, _) | Instr::Unlink(_, _) => after,
        Instr::Arm(_, _) | Instr::Disarm(_, _) | Instr::IfCancel(_, _) => after,
        Instr::Start(_) | Instr::Take(_, _) | Instr::Begin(_) | Instr::Next => after,
        Instr::Dequeue(_) | Instr::IfPending(_, _) => after,
    };
    match instr.label() {
        Some(label) => next.and(at(places, label as usize)),
        None => next,
    }
}

/// The registers that matter where some loop's body begins.
fn at_loops(places: &[Registers], code: &[Instr]) -> Registers {
    let mut all = Registers::NONE;
    for position in 0..code.len() {
        if let Some(Instr::Loop(_)) = code.get(position) {
            all = all.and(at(places, position.saturating_add(1)));
        }
    }
    all
}

/// Notes a field of packets, if it is so. The major function decides which routine serves a packet,
/// so it matters anyway.
fn note_field(so: bool, field: Field, fields: &mut Fields) {
    match field {
        Field::Major => {}
        Field::Argument => note_if(so, &mut fields.argument, &mut fields.grew),
        Field::Info => note_if(so, &mut fields.information, &mut fields.grew),
    }
}

/// Notes a cell, if it is so.
fn note_cell(so: bool, cell: Cell, cells: &mut [bool; CELLS], fields: &mut Fields) {
    note_if(so, &mut cells[cell.index()], &mut fields.grew);
}

/// Notes that something matters, if it is so, and whether that is new.
fn note_if(so: bool, matters: &mut bool, grew: &mut bool) {
    if so && !*matters {
        *matters = true;
        *grew = true;
    }
}

/// The registers that matter before an instruction, by those that matter behind it. The cell or the
/// field that it reads into one of these is noted.
fn needed_before(
    instr: &Instr,
    behind: Registers,
    cells: &mut Cells,
    fields: &mut Fields,
) -> Registers {
    match *instr {
        Instr::Const(target, _) | Instr::Clear(target) => behind.without(target),
        Instr::Load(target, cell) => {
            note_cell(behind.has(target), cell, &mut cells.plain, fields);
            behind.without(target)
        }
        Instr::LoadPaged(target, cell) => {
            note_cell(behind.has(target), cell, &mut cells.paged, fields);
            behind.without(target)
        }
        Instr::Get(target, _, field) => {
            note_field(behind.has(target), field, fields);
            behind.without(target)
        }
        Instr::Move(target, source) => behind.without(target).with_if(behind.has(target), source),
        Instr::Add(target, source) | Instr::Subtract(target, source) => {
            behind.with_if(behind.has(target), source)
        }
        Instr::JumpIfZero(register, _) => behind.with(register),
        Instr::JumpIfLess(left, right, _) => behind.with(left).with(right),
        Instr::Store(cell, source) => behind.with_if(cells.plain[cell.index()], source),
        Instr::StorePaged(cell, source) => behind.with_if(cells.paged[cell.index()], source),
        Instr::Put(_, source) => behind.with_if(fields.information, source),
        Instr::Jump(_) | Instr::Loop(_) | Instr::End | Instr::Ret(_) => behind,
        Instr::Mark(_) | Instr::Pass(_) | Instr::Call(_, _) | Instr::Complete(_, _) => behind,
        Instr::Acquire(_) | Instr::Release(_) => behind,
        Instr::AcquireCancel | Instr::ReleaseCancel => behind,
        Instr::Insert(_, _) | Instr::Remove(_, _, _) | Instr::Unlink(_, _) => behind,
        Instr::Arm(_, _) | Instr::Disarm(_, _) | Instr::IfCancel(_, _) => behind,
        Instr::Start(_) | Instr::Take(_, _) | Instr::Begin(_) | Instr::Next => behind,
        Instr::Dequeue(_) | Instr::IfPending(_, _) => behind,
    }
}

/// Keeps the registers that matter at a position, with those that are known already.
fn keep(places: &mut Vec<Registers>, position: usize, needed: Registers, fields: &mut Fields) {
    if let Some(known) = places.get_mut(position) {
        if !needed.is_within(*known) {
            *known = known.and(needed);
            fields.grew = true;
        }
    }
}
