//! What the lines of a driver text say so far.

ghost use Rattle.std.specs.Prelude.{◌≡◌};
ghost use Rattle.asm.specs.Outline.{nothing_read};

use crate::code::{ClosedCode, OpenCode};
use crate::names::Use;
use indexmap::IndexSet;
use model::instr::{Instr, SpinLock};
use model::set::{Device, Driver, Sort};
use std::alloc::Global;
use std::marker::Model;
use text::piece::Piece;

/// Where a line stands.
#[derive(Clone, Copy)]
pub enum Place {
    Outside,
    InDriver,
    InRoutine,
}

/// An instruction of the open routine. Where it jumps, `label` is the use of its label's name;
/// where it is a `call` that sets a routine, `call` is the place of the use of that routine's name
/// among those of the open driver's calls; where it touches a queue, `queue` is the place of the
/// use of that queue's name among those of the open driver's instructions.
#[derive(Drop)]
pub struct Step<'a> {
    pub instr: Instr,
    pub label: Option<Use<'a>>,
    pub call: Option<usize>,
    pub queue: Option<usize>,
}

/// An instruction of a closed routine, so its label is known. For `call` and `queue` see `Step`.
#[derive(Drop)]
pub struct Linked {
    pub instr: Instr,
    pub call: Option<usize>,
    pub queue: Option<usize>,
}

/// A closed routine of the open driver.
#[derive(Drop)]
pub struct ClosedRoutine {
    pub sort: Sort,
    pub code: ClosedCode,
}

/// A queue of the open driver: the spin lock that guards it, and the use of the name of its cancel
/// routine, if it has one.
#[derive(Drop)]
pub struct QueueLine<'a> {
    pub guard: SpinLock,
    pub cancel: Option<Use<'a>>,
}

/// The `startio` line of the open driver: the use of the name of its StartIo routine, and that of
/// the cancel routine of the packets that wait in the device queue, if they have one.
#[derive(Drop)]
pub struct StartIoLine<'a> {
    pub routine: Use<'a>,
    pub cancel: Option<Use<'a>>,
}

/// What was read. Contracts see an `Outline`.
#[derive(Drop)]
pub struct Draft<'a> {
    pub(crate) place: Place,
    pub(crate) driver_names: IndexSet<Piece<'a>>,
    pub(crate) drivers: Vec<Driver>,
    pub(crate) device_names: IndexSet<Piece<'a>>,
    pub(crate) devices: Vec<Device>,
    pub(crate) routine_names: IndexSet<Piece<'a>>,
    pub(crate) sorts: Vec<Sort>,
    pub(crate) routines: Vec<ClosedRoutine>,
    pub(crate) calls: Vec<Use<'a>>,
    pub(crate) queue_names: IndexSet<Piece<'a>>,
    pub(crate) queues: Vec<QueueLine<'a>>,
    pub(crate) queue_uses: Vec<Use<'a>>,
    pub(crate) read: Option<Use<'a>>,
    pub(crate) write: Option<Use<'a>>,
    pub(crate) control: Option<Use<'a>>,
    pub(crate) startio: Option<StartIoLine<'a>>,
    pub(crate) dpc: Option<Use<'a>>,
    pub(crate) sort: Sort,
    pub(crate) labels: IndexSet<Piece<'a>>,
    pub(crate) positions: Vec<u16>,
    pub(crate) steps: OpenCode<'a>,
    pub(crate) unknown: Option<u64>,
}

impl<'a> Model for Draft<'a> {
    ghost use Rattle.asm.specs.Outline.{Outline};

    ghost Value = { Outline };

    ghost view = { λ d. record {
      place = d.place;
      driver_names = d.driver_names.keys;
      drivers = d.drivers.items;
      device_names = d.device_names.keys;
      devices = d.devices.items;
      routine_names = d.routine_names.keys;
      sorts = d.sorts.items;
      routines = d.routines.items;
      calls = d.calls.items;
      queue_names = d.queue_names.keys;
      queues = d.queues.items;
      queue_uses = d.queue_uses.items;
      read = d.read;
      write = d.write;
      control = d.control;
      startio = d.startio;
      dpc = d.dpc;
      sort = d.sort;
      labels = d.labels.keys;
      positions = d.positions.items;
      steps = d.steps;
      unknown = d.unknown;
    } };
}

impl<'a> Draft<'a> {
    /// Nothing read yet.
    pub fn new(alloc: Global) -> Draft<'a>
        ensures { result ≡ nothing_read }
    {
        Draft {
            place: Place::Outside,
            driver_names: IndexSet::new(alloc),
            drivers: Vec::new(alloc),
            device_names: IndexSet::new(alloc),
            devices: Vec::new(alloc),
            routine_names: IndexSet::new(alloc),
            sorts: Vec::new(alloc),
            routines: Vec::new(alloc),
            calls: Vec::new(alloc),
            queue_names: IndexSet::new(alloc),
            queues: Vec::new(alloc),
            queue_uses: Vec::new(alloc),
            read: None,
            write: None,
            control: None,
            startio: None,
            dpc: None,
            sort: Sort::Dispatch,
            labels: IndexSet::new(alloc),
            positions: Vec::new(alloc),
            steps: OpenCode::new(alloc),
            unknown: None,
        }
    }
}
