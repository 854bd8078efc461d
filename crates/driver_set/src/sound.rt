//! The tests that a driver set has to pass to be one.

ghost use Rattle.std.specs.Prelude.{◌≡◌, ◌≤◌, ◌<◌, ◌↔◌, length, IsTrue, IfSome, All, ℕ, slice_get};
ghost use Rattle.model.specs.Sound.{IsSound, DeviceFits, DevicesFit, DriverFits, RoutineFits};
ghost use Rattle.model.specs.Sound.{OperandFits, CallsFit};
ghost use Rattle.model.specs.Sound.{HandlerFits, HasSort, IsDispatch, IsCompletion};
ghost use Rattle.model.specs.Sound.{StartIoFits, IsStartIo, WaitingFits, DpcFits, IsDpc};
ghost use Rattle.model.specs.Sound.{QueuesFit, GuardFits, IsCancel, CancelFits};
ghost use Rattle.driver_set.specs.Standing.{NamesFit, InstrFits, RoutineStands};

use model::instr::{Instr, Return};
use model::limits::{
    CELLS, MAX_DEVICES, MAX_DRIVERS, MAX_INSTRUCTIONS, MAX_QUEUES, MAX_ROUTINES, MAX_STACK,
    MAX_TURNS, REGISTERS, SPIN_LOCKS,
};
use model::set::{Device, Driver, Queue, Routine, Sort};

/// Whether an instruction's operands are within their limits. Their types keep them there.
fn operand_fits(instr: &Instr) -> bool
    ensures always { IsTrue result }
    ensures fits { OperandFits instr.now }
{
    match *instr {
        Instr::Const(register, _number) => register.index() < REGISTERS,
        Instr::Clear(register)
        | Instr::JumpIfZero(register, _)
        | Instr::Mark(register)
        | Instr::Insert(register, _)
        | Instr::Remove(register, _, _)
        | Instr::Unlink(register, _)
        | Instr::Arm(register, _)
        | Instr::Disarm(register, _)
        | Instr::IfCancel(register, _)
        | Instr::Start(register)
        | Instr::Take(register, _)
        | Instr::Begin(register)
        | Instr::Dequeue(register)
        | Instr::Pass(register)
        | Instr::Call(register, _)
        | Instr::Complete(register, _)
        | Instr::IfPending(register, _)
        | Instr::Ret(Return::Lower(register)) => register.index() < REGISTERS,
        Instr::Move(first, second)
        | Instr::Add(first, second)
        | Instr::Subtract(first, second)
        | Instr::JumpIfLess(first, second, _)
        | Instr::Get(first, second, _)
        | Instr::Put(first, second) => first.index() < REGISTERS && second.index() < REGISTERS,
        Instr::Load(register, cell)
        | Instr::Store(cell, register)
        | Instr::LoadPaged(register, cell)
        | Instr::StorePaged(cell, register) => register.index() < REGISTERS && cell.index() < CELLS,
        Instr::Loop(turns) => 1 <= turns.count() && turns.count() <= MAX_TURNS,
        Instr::Acquire(lock) | Instr::Release(lock) => lock.index() < SPIN_LOCKS,
        Instr::Jump(_)
        | Instr::End
        | Instr::AcquireCancel
        | Instr::ReleaseCancel
        | Instr::Next
        | Instr::Ret(Return::WithStatus(_) | Return::Continue | Return::Stop | Return::Void) =>
            true,
    }
}

/// Whether the routine of a number is a dispatch routine.
fn is_dispatch(routines: &[Routine], number: u8) -> bool
    ensures { IsTrue result ↔ HasSort IsDispatch (slice_get routines.now number) }
{
    match routines.get(number as usize) {
        Some(routine) => matches!(routine.sort, Sort::Dispatch),
        None => false,
    }
}

/// Whether the routine of a number is a StartIo routine.
fn is_startio(routines: &[Routine], number: u8) -> bool
    ensures { IsTrue result ↔ HasSort IsStartIo (slice_get routines.now number) }
{
    match routines.get(number as usize) {
        Some(routine) => matches!(routine.sort, Sort::StartIo),
        None => false,
    }
}

/// Whether the routine of a number is a DPC routine.
fn is_dpc(routines: &[Routine], number: u8) -> bool
    ensures { IsTrue result ↔ HasSort IsDpc (slice_get routines.now number) }
{
    match routines.get(number as usize) {
        Some(routine) => matches!(routine.sort, Sort::Dpc),
        None => false,
    }
}

/// Whether the routine of a number is a completion routine.
fn is_completion(routines: &[Routine], number: u8) -> bool
    ensures { IsTrue result ↔ HasSort IsCompletion (slice_get routines.now number) }
{
    match routines.get(number as usize) {
        Some(routine) => matches!(routine.sort, Sort::Propagate | Sort::Hold),
        None => false,
    }
}

/// Whether the routine of a number is a cancel routine.
fn is_cancel(routines: &[Routine], number: u8) -> bool
    ensures { IsTrue result ↔ HasSort IsCancel (slice_get routines.now number) }
{
    match routines.get(number as usize) {
        Some(routine) => matches!(routine.sort, Sort::Cancel),
        None => false,
    }
}

fn handler_fits(routines: &[Routine], handler: Option<u8>) -> bool
    ensures { IsTrue result ↔ HandlerFits routines.now handler }
{
    match handler {
        Some(number) => is_dispatch(routines, number),
        None => true,
    }
}

fn startio_fits(routines: &[Routine], startio: Option<u8>) -> bool
    ensures { IsTrue result ↔ StartIoFits routines.now startio }
{
    match startio {
        Some(number) => is_startio(routines, number),
        None => true,
    }
}

/// Whether a driver may name this cancel routine for its device queue: it needs a StartIo routine.
fn waiting_fits(routines: &[Routine], startio: Option<u8>, cancel: Option<u8>) -> bool
    ensures { IsTrue result ↔ WaitingFits routines.now startio cancel }
{
    match (startio, cancel) {
        (_, None) => true,
        (None, Some(_)) => false,
        (Some(_), Some(number)) => is_cancel(routines, number),
    }
}

fn dpc_fits(routines: &[Routine], dpc: Option<u8>) -> bool
    ensures { IsTrue result ↔ DpcFits routines.now dpc }
{
    match dpc {
        Some(number) => is_dpc(routines, number),
        None => true,
    }
}

/// Whether the guard of a queue is one of the spin locks. Its type keeps it there.
fn guard_fits(queue: &Queue) -> bool
    ensures always { IsTrue result }
    ensures fits { GuardFits queue.now }
{
    queue.guard.index() < SPIN_LOCKS
}

fn guards_fit(queues: &[Queue]) -> bool
    ensures always { IsTrue result }
    ensures fit { All GuardFits queues.now }
{
    queues.iter().all(|queue| guard_fits(queue))
}

fn cancel_fits(routines: &[Routine], queue: &Queue) -> bool
    ensures { IsTrue result ↔ CancelFits routines.now queue.now }
{
    match queue.cancel {
        Some(number) => is_cancel(routines, number),
        None => true,
    }
}

fn cancels_fit(routines: &[Routine], queues: &[Queue]) -> bool
    ensures { IsTrue result ↔ All (CancelFits routines.now) queues.now }
{
    queues.iter().all(|queue| cancel_fits(routines, queue))
}

/// Whether what an instruction names is there: one of so many positions of its routine, a
/// completion routine of its driver, one of so many queues.
fn names_fit(positions: usize, routines: &[Routine], queues: usize, instr: &Instr) -> bool
    ensures { IsTrue result ↔ NamesFit positions routines.now queues instr.now }
{
    match *instr {
        Instr::JumpIfZero(_, label)
        | Instr::JumpIfLess(_, _, label)
        | Instr::Jump(label)
        | Instr::Disarm(_, label)
        | Instr::IfCancel(_, label)
        | Instr::Take(_, label)
        | Instr::IfPending(_, label) => (label as usize) < positions,
        Instr::Remove(_, queue, label) => {
            (label as usize) < positions && (queue as usize) < queues
        }
        Instr::Insert(_, queue) | Instr::Unlink(_, queue) | Instr::Arm(_, queue) => {
            (queue as usize) < queues
        }
        Instr::Call(_, Some(number)) => is_completion(routines, number),
        _ => true,
    }
}

fn instr_fits(positions: usize, routines: &[Routine], queues: usize, instr: &Instr) -> bool
    ensures { IsTrue result ↔ InstrFits positions routines.now queues instr.now }
{
    // the types of the operands keep them within their limits, so nothing is tested
    prove!(operand_fits(instr));
    names_fit(positions, routines, queues, instr)
}

fn code_fits(routines: &[Routine], queues: usize, code: &[Instr]) -> bool
    ensures { IsTrue result ↔ All (InstrFits (length code.now) routines.now queues) code.now }
{
    let positions = code.len();
    code.iter()
        .all(|instr| instr_fits(positions, routines, queues, instr))
}

/// Whether a routine of a driver with these routines and so many queues fits: one look at each of
/// its instructions.
fn routine_fits(routines: &[Routine], queues: usize, routine: &Routine) -> bool
    ensures { IsTrue result ↔ RoutineStands routines.now queues routine.now }
{
    let code = routine.code.as_slice();
    code.len() <= MAX_INSTRUCTIONS && code_fits(routines, queues, code)
}

/// Whether the routines of a driver with so many queues fit.
fn routines_fit(routines: &[Routine], queues: usize) -> bool
    ensures { IsTrue result ↔ (All RoutineFits routines.now
        × All (CallsFit routines.now) routines.now
        × All (QueuesFit queues) routines.now) }
{
    routines
        .iter()
        .all(|routine| routine_fits(routines, queues, routine))
}

fn driver_fits(driver: &Driver) -> bool
    ensures { IsTrue result ↔ DriverFits driver.now }
{
    let routines = driver.routines.as_slice();
    let queues = driver.queues.as_slice();
    // the type of a guard keeps it within its limits, so nothing is tested
    prove!(guards_fit(queues));
    routines.len() <= MAX_ROUTINES
        && routines_fit(routines, queues.len())
        && handler_fits(routines, driver.read)
        && handler_fits(routines, driver.write)
        && handler_fits(routines, driver.control)
        && startio_fits(routines, driver.startio)
        && waiting_fits(routines, driver.startio, driver.startio_cancel)
        && dpc_fits(routines, driver.dpc)
        && queues.len() <= MAX_QUEUES
        && cancels_fit(routines, queues)
}

fn lower_fits(number: usize, lower: Option<u8>) -> bool
    ensures { IsTrue result ↔ IfSome lower (λ lower. lower < number) }
{
    match lower {
        Some(lower) => (lower as usize) < number,
        None => true,
    }
}

fn device_fits(drivers: usize, number: usize, device: &Device) -> bool
    ensures { IsTrue result ↔ DeviceFits drivers number device.now }
{
    (device.driver as usize) < drivers
        && 1 <= device.stack
        && device.stack as usize <= MAX_STACK
        && lower_fits(number, device.lower)
}

fn drivers_fit(drivers: &[Driver]) -> bool
    ensures { IsTrue result ↔ All DriverFits drivers.now }
{
    drivers.iter().all(|driver| driver_fits(driver))
}

fn devices_fit(drivers: usize, devices: &[Device]) -> bool
    ensures { IsTrue result ↔ DevicesFit drivers 0 devices.now }
{
    for (number, device) in devices.iter().enumerate() {
        if !device_fits(drivers, number, device) {
            return false;
        }
    }
    true
}

/// Whether drivers and devices make a set.
pub fn is_sound(drivers: &[Driver], devices: &[Device]) -> bool
    ensures { IsTrue result ↔ IsSound (record { drivers = drivers.now; devices = devices.now }) }
{
    let count = drivers.len();
    count <= MAX_DRIVERS
        && devices.len() <= MAX_DEVICES
        && drivers_fit(drivers)
        && devices_fit(count, devices)
}
