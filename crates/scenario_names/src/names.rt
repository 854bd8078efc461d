//! What a driver text names: its devices, its instructions by their lines and labels, and its
//! queues.

ghost use Rattle.std.specs.Prelude.{◌≡◌, IfOk, OnOk, Some, nat_eq, position};
ghost use Rattle.scenario_names.specs.Names.{entry_of, has_label, has_name, is_called, is_in};
ghost use Rattle.scenario_names.specs.Names.{labelled, more, names_of, noted, nothing, number_at};
ghost use Rattle.scenario_names.specs.Names.{on_line, queue_at, queue_named, spot_at};
ghost use Rattle.scenario_names.specs.Names.{with_instruction, with_queue};

use asm_line::{Body, Line, read_line};
use std::alloc::{AllocError, Global};
use std::marker::Model;
use text::class::is;
use text::cut::Lines;
use text::piece::Piece;

/// The place of an instruction: its driver and its routine, each counted from 0 in the order of the
/// text, and its position there.
#[derive(Clone, Copy)]
pub struct Spot {
    pub driver: u64,
    pub routine: u64,
    pub position: u64,
}

/// An instruction of a text.
#[derive(Drop)]
pub struct Instruction<'a> {
    /// The name of its routine.
    pub routine: Option<Piece<'a>>,
    pub label: Option<Piece<'a>>,
    /// The number of its line.
    pub line: u64,
    pub spot: Spot,
}

/// A queue of a text.
#[derive(Drop)]
pub struct Queue<'a> {
    /// The name of its driver.
    pub driver: Option<Piece<'a>>,
    pub name: Piece<'a>,
    /// Its number among those of its driver, counted from 0.
    pub number: u64,
}

/// What a text names.
#[derive(Drop)]
pub struct Names<'a> {
    /// Its devices, in their order.
    pub devices: Vec<Piece<'a>>,
    /// The names of their drivers, likewise.
    homes: Vec<Piece<'a>>,
    /// Its instructions, likewise.
    pub instructions: Vec<Instruction<'a>>,
    pub queues: Vec<Queue<'a>>,
    /// So many drivers have begun, and in the last of them, which has this name, so many queues and
    /// so many routines, of which the last has this name and so many instructions so far.
    drivers: u64,
    driver: Option<Piece<'a>>,
    places: u64,
    routines: u64,
    routine: Option<Piece<'a>>,
    positions: u64,
}

impl<'a> Model for Names<'a> {
    ghost use Rattle.scenario_names.specs.Names.{Named};

    ghost Value = { Named };

    ghost view = { λ n. record {
      devices = n.devices.items;
      homes = n.homes.items;
      instructions = n.instructions.items;
      queues = n.queues.items;
      drivers = n.drivers;
      driver = n.driver;
      places = n.places;
      routines = n.routines;
      routine = n.routine;
      positions = n.positions;
    } };
}

impl<'a> Names<'a> {
    /// No names.
    pub fn new(alloc: Global) -> Names<'a>
        ensures { result ≡ nothing }
    {
        Names {
            devices: Vec::new(alloc),
            homes: Vec::new(alloc),
            instructions: Vec::new(alloc),
            queues: Vec::new(alloc),
            drivers: 0,
            driver: None,
            places: 0,
            routines: 0,
            routine: None,
            positions: 0,
        }
    }

    /// The names of a text that names a set.
    ///
    /// # Errors
    ///
    /// When memory runs out.
    pub fn of(alloc: Global, text: &'a [u8]) -> Result<Names<'a>, AllocError>
        ensures { IfOk result (λ names. names ≡ names_of text.now) }
    {
        let mut names = Names::new(alloc);
        let mut left = Lines::of(text);
        let mut number: u64 = 1;
        while let Some(raw) = left.next() {
            if let Ok(line) = read_line(raw) {
                names.note(number, line)?;
            }
            number += 1;
        }
        Ok(names)
    }

    /// Notes what a line says.
    fn note(&mut self, number: u64, line: Line<'a>) -> Result<(), AllocError>
        ensures { OnOk result (self.new ≡ noted self.old number line.entry) }
    {
        let Line { label, body } = line;
        match body {
            Body::OpenDriver(name) => {
                self.drivers = more(self.drivers);
                self.driver = Some(name);
                self.places = 0;
                self.routines = 0;
            }
            Body::AddQueue(name, _, _) => self.add_queue(name)?,
            Body::OpenRoutine(name, _) => {
                self.routines = more(self.routines);
                self.routine = Some(name);
                self.positions = 0;
            }
            Body::AddDevice(name, driver, _, _) => {
                self.devices.push(name)?;
                self.homes.push(driver)?;
            }
            Body::Step(_, _) => self.add(number, label)?,
            _ => {}
        }
        Ok(())
    }

    /// Adds an instruction of the last routine, in the line of a number.
    fn add(&mut self, number: u64, label: Option<Piece<'a>>) -> Result<(), AllocError>
        ensures { OnOk result (self.new ≡ with_instruction self.old number label.entry) }
    {
        self.instructions.push(Instruction {
            routine: again(&self.routine),
            label,
            line: number,
            spot: Spot {
                driver: self.drivers.saturating_sub(1),
                routine: self.routines.saturating_sub(1),
                position: self.positions,
            },
        })?;
        self.positions = more(self.positions);
        Ok(())
    }

    /// Adds a queue of the last driver.
    fn add_queue(&mut self, name: Piece<'a>) -> Result<(), AllocError>
        ensures { OnOk result (self.new ≡ with_queue self.old name.entry) }
    {
        self.queues.push(Queue {
            driver: again(&self.driver),
            name,
            number: self.places,
        })?;
        self.places = more(self.places);
        Ok(())
    }

    /// Where the instruction in the line of a number stands.
    pub fn on_line(&self, number: u64) -> Option<Spot>
        ensures { result ≡ on_line self.now number }
    {
        let instructions = self.instructions.as_slice();
        spot_at(instructions, place_on_line(instructions, number))
    }

    /// Where the first instruction with this label in a routine of this name stands.
    pub fn labelled(&self, routine: &[u8], label: &[u8]) -> Option<Spot>
        ensures { result ≡ labelled self.now routine.now label.now }
    {
        let instructions = self.instructions.as_slice();
        spot_at(instructions, place_labelled(instructions, routine, label))
    }

    /// Where the first instruction in a routine of this name stands.
    pub fn entry_of(&self, routine: &[u8]) -> Option<Spot>
        ensures { result ≡ entry_of self.now routine.now }
    {
        let instructions = self.instructions.as_slice();
        spot_at(instructions, place_in(instructions, routine))
    }

    /// The number of a device's queue with this name.
    pub fn queue_named(&self, device: u8, name: &[u8]) -> Option<u64>
        ensures { result ≡ queue_named self.now device name.now }
    {
        match self.homes.get(device as usize) {
            Some(driver) => self.queue_at(name, driver.bytes()),
            None => None,
        }
    }

    /// The number of a driver's queue with this name.
    fn queue_at(&self, name: &[u8], driver: &[u8]) -> Option<u64>
        ensures { result ≡ queue_at self.now name.now (Some driver.now) }
    {
        let queues = self.queues.as_slice();
        number_at(queues, place_named(queues, driver, name))
    }
}

/// Where the instruction at a place among these stands, if there is one.
fn spot_at(instructions: &[Instruction<'_>], place: Option<usize>) -> Option<Spot>
    ensures { result ≡ spot_at instructions.now place }
{
    let instruction = instructions.get(place?)?;
    Some(instruction.spot)
}

/// The place of the instruction in the line of a number.
fn place_on_line(instructions: &[Instruction<'_>], number: u64) -> Option<usize>
    ensures { result ≡ position (λ i. nat_eq i.line number) instructions.now }
{
    instructions
        .iter()
        .position(|instruction| instruction.line == number)
}

/// The place of the first instruction with this label in a routine of this name.
fn place_labelled(instructions: &[Instruction<'_>], routine: &[u8], label: &[u8]) -> Option<usize>
    ensures { result ≡ position (has_label routine.now label.now) instructions.now }
{
    instructions
        .iter()
        .position(|instruction| has_label(routine, label, instruction))
}

/// Whether an instruction has this label, in a routine of this name.
fn has_label(routine: &[u8], label: &[u8], instruction: &Instruction<'_>) -> bool
    ensures { result ≡ has_label routine.now label.now instruction.now }
{
    is_called(routine, &instruction.routine) && is_called(label, &instruction.label)
}

/// Whether there is a name, and it is this one.
fn is_called(name: &[u8], other: &Option<Piece<'_>>) -> bool
    ensures { result ≡ is_called name.now other.now }
{
    match other {
        Some(other) => is(name, other.bytes()),
        None => false,
    }
}

/// One more, up to the greatest number.
fn more(count: u64) -> u64
    ensures { result ≡ more count }
{
    if count < u64::MAX { count + 1 } else { count }
}

/// The place of the first instruction in a routine of this name.
fn place_in(instructions: &[Instruction<'_>], routine: &[u8]) -> Option<usize>
    ensures { result ≡ position (is_in routine.now) instructions.now }
{
    instructions
        .iter()
        .position(|instruction| is_called(routine, &instruction.routine))
}

/// The number of the queue at a place among these, if there is one.
fn number_at(queues: &[Queue<'_>], place: Option<usize>) -> Option<u64>
    ensures { result ≡ number_at queues.now place }
{
    let queue = queues.get(place?)?;
    Some(queue.number)
}

/// The place of the queue of a driver with this name.
fn place_named(queues: &[Queue<'_>], driver: &[u8], name: &[u8]) -> Option<usize>
    ensures { result ≡ position (has_name driver.now name.now) queues.now }
{
    queues.iter().position(|queue| is_called(driver, &queue.driver) && is(name, queue.name.bytes()))
}

/// The same name once more, if there is one.
fn again<'a>(name: &Option<Piece<'a>>) -> Option<Piece<'a>>
    ensures { result ≡ name.now }
{
    let name = name.as_ref()?;
    Some(name.again())
}
