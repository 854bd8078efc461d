//! What of a driver set says which events may matter.

ghost use Rattle.std.specs.Prelude.{◌≡◌, IfOk, List};
ghost use Rattle.std.specs.List.{list_any};
ghost use Rattle.hunt_facts.specs.declared.arguments.Asking.{Asking};
ghost use Rattle.hunt_facts.specs.Raised.{is_below, is_raised, is_raising, raises, touches_paged};
ghost use Rattle.hunt_facts.specs.Requests.{requests_of};

use crate::arguments::Arguments;
use crate::reaching::Reaching;
use crate::requests::{Request, requests_of};
use driver_set::{DriverSet, Instr};
use model::set::{Driver, Routine, Sort};
use std::alloc::{AllocError, Global};

/// What of a driver set says which events may matter.
#[derive(Drop)]
pub struct Facts {
    /// The requests that are tried.
    pub requests: Vec<Request>,
    pub uses: Uses,
    /// The numbers that matter.
    pub reaching: Reaching,
}

/// What some routine of a driver set does.
#[derive(Clone, Copy)]
pub struct Uses {
    /// It touches paged cells, and may run below IoCancelIrp, so that this is called at
    /// DISPATCH_LEVEL too.
    pub paged: bool,
    /// It asks whether a packet is cancelled.
    pub cancel: bool,
}

impl Facts {
    /// Those of a set, where every request is also tried with a further argument, if there is one.
    ///
    /// # Errors
    ///
    /// When memory runs out.
    pub fn of(alloc: Global, set: &DriverSet, further: Option<u64>) -> Result<Facts, AllocError>
        ensures requests { IfOk result (λ facts. (asking : List Asking)
            × (facts.requests.items ≡ requests_of set.now further asking)) }
        ensures raised { IfOk result (λ facts. facts.uses.paged ≡ is_raised set.now) }
    {
        let reaching = Reaching::of(alloc, set)?;
        let arguments = Arguments::of(alloc, set, &reaching, further)?;
        Ok(Facts {
            requests: requests_of(alloc, set, &arguments)?,
            uses: uses_of(set.drivers()),
            reaching,
        })
    }
}

/// What the routines of drivers do.
fn uses_of(drivers: &[Driver]) -> Uses
    ensures { result.paged ≡ list_any is_raising drivers.now }
{
    Uses {
        paged: are_raising(drivers),
        cancel: drivers.iter().any(|driver| is_asking(driver)),
    }
}

/// Whether a routine of one of the drivers may run below IoCancelIrp and touches paged cells.
fn are_raising(drivers: &[Driver]) -> bool
    ensures { result ≡ list_any is_raising drivers.now }
{
    drivers.iter().any(|driver| is_raising(driver))
}

fn is_raising(driver: &Driver) -> bool
    ensures { result ≡ is_raising driver.now }
{
    let routines = driver.routines.as_slice();
    routines.iter().any(|routine| raises(routine))
}

fn raises(routine: &Routine) -> bool
    ensures { result ≡ raises routine.now }
{
    is_below(routine.sort) && is_paged(routine.code.as_slice())
}

/// Whether a routine of this sort may run below IoCancelIrp.
fn is_below(sort: Sort) -> bool
    ensures { result ≡ is_below sort }
{
    !matches!(sort, Sort::Dispatch)
}

/// Whether code touches paged cells.
fn is_paged(code: &[Instr]) -> bool
    ensures { result ≡ list_any touches_paged code.now }
{
    code.iter().any(|instr| touches_paged(instr))
}

fn touches_paged(instr: &Instr) -> bool
    ensures { result ≡ touches_paged instr.now }
{
    matches!(*instr, Instr::LoadPaged(_, _) | Instr::StorePaged(_, _))
}

/// Whether a routine of a driver asks whether a packet is cancelled.
fn is_asking(driver: &Driver) -> bool {
    let routines = driver.routines.as_slice();
    routines.iter().any(|routine| asks(routine))
}

fn asks(routine: &Routine) -> bool {
    let code = routine.code.as_slice();
    code.iter().any(|instr| asks_cancel(instr))
}

/// Whether an instruction asks whether a packet is cancelled. Each is named, so that a new one says
/// so.
fn asks_cancel(instr: &Instr) -> bool {
    match *instr {
        Instr::IfCancel(_, _) => true,
        Instr::Const(_, _) | Instr::Move(_, _) | Instr::Clear(_) => false,
        Instr::Add(_, _) | Instr::Subtract(_, _) => false,
        Instr::JumpIfZero(_, _) | Instr::JumpIfLess(_, _, _) | Instr::Jump(_) => false,
        Instr::Loop(_) | Instr::End | Instr::Ret(_) => false,
        Instr::Load(_, _) | Instr::Store(_, _) => false,
        Instr::LoadPaged(_, _) | Instr::StorePaged(_, _) => false,
        Instr::Get(_, _, _) | Instr::Put(_, _) => false,
        Instr::Mark(_) | Instr::Pass(_) | Instr::Call(_, _) | Instr::Complete(_, _) => false,
        Instr::Acquire(_) | Instr::Release(_) => false,
        Instr::AcquireCancel | Instr::ReleaseCancel => false,
        Instr::Insert(_, _) | Instr::Remove(_, _, _) | Instr::Unlink(_, _) => false,
        Instr::Arm(_, _) | Instr::Disarm(_, _) => false,
        Instr::Start(_) | Instr::Take(_, _) | Instr::Begin(_) | Instr::Next => false,
        Instr::Dequeue(_) | Instr::IfPending(_, _) => false,
    }
}
