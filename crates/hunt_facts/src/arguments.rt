//! The arguments that requests are tried with: more than one only where a routine that the packet
//! may come to reads its argument into a register that can reach a jump.

ghost use Rattle.std.specs.Prelude.{◌≡◌, [], ◌∷◌, IfOk, OnOk};
ghost use Rattle.std.specs.List.{list_any};
ghost use Rattle.hunt_facts.specs.Requests.{arguments_of, asks, of_request, with_argument};
ghost use Rattle.hunt_facts.specs.Requests.{with_code, with_constant, with_drivers, with_further};
ghost use Rattle.hunt_facts.specs.Requests.{with_instr, with_routines};

use crate::reaching::Reaching;
use crate::requests::MAJORS;
use driver_set::{DriverSet, Instr};
use model::set::{Driver, Routine, Sort};
use model::status::Major;
use std::alloc::{AllocError, Global};
use std::marker::Model;

/// The arguments of requests that are tried, at most, beside one that is asked for.
pub(crate) const MAX_ARGUMENTS: usize = 8;

/// A request whose argument is read.
#[derive(Clone, Copy)]
pub struct Asking {
    pub device: u8,
    pub major: Major,
}

/// The arguments that requests are tried with.
#[derive(Drop)]
pub(crate) struct Arguments {
    /// Where the argument is read.
    many: Vec<u64>,
    /// Where it isn't.
    few: Vec<u64>,
    asking: Vec<Asking>,
}

impl Model for Arguments {
    ghost use Rattle.hunt_facts.specs.Requests.{Arguments};

    ghost Value = { Arguments };

    ghost view = { λ a. record {
      many = a.many.items;
      few = a.few.items;
      asking = a.asking.items;
    } };
}

impl Arguments {
    /// Those of the requests to a set, and a further one, if there is one.
    pub(crate) fn of(
        alloc: Global,
        set: &DriverSet,
        reaching: &Reaching,
        further: Option<u64>,
    ) -> Result<Arguments, AllocError>
        ensures { IfOk result (λ a. a ≡ arguments_of set.now further a.asking) }
    {
        let mut many = read_arguments(alloc, set.drivers())?;
        add_further(&mut many, further)?;
        let mut few = Vec::new(alloc);
        few.push(0)?;
        add_further(&mut few, further)?;
        Ok(Arguments {
            many,
            few,
            asking: asking_of(alloc, set, reaching)?,
        })
    }

    /// Those of a request to a device.
    pub(crate) fn of_request(&self, device: u8, major: Major) -> &[u64]
        ensures { result.now ≡ of_request self.now device major }
    {
        if is_asked(self.asking.as_slice(), device, major) {
            self.many.as_slice()
        } else {
            self.few.as_slice()
        }
    }
}

/// Whether a request to a device with a major function is among these.
fn is_asked(asking: &[Asking], device: u8, major: Major) -> bool
    ensures { result ≡ list_any (asks device major) asking.now }
{
    asking.iter().any(|asking| asks(device, major, asking))
}

/// Whether this is a request to a device with a major function.
fn asks(device: u8, major: Major, asking: &Asking) -> bool
    ensures { result ≡ asks device major asking.now }
{
    asking.device == device && asking.major.code() == major.code()
}

/// 0 and 1, and each constant of drivers and the number after it.
fn read_arguments(alloc: Global, drivers: &[Driver]) -> Result<Vec<u64>, AllocError>
    ensures { IfOk result (λ arguments. arguments.items ≡ with_drivers (0 ∷ 1 ∷ []) drivers.now) }
{
    let mut arguments = Vec::new(alloc);
    arguments.push(0)?;
    arguments.push(1)?;
    for driver in drivers {
        add_routines(&mut arguments, driver.routines.as_slice())?;
    }
    Ok(arguments)
}

/// Adds the constants of routines.
fn add_routines(arguments: &mut Vec<u64>, routines: &[Routine]) -> Result<(), AllocError>
    ensures { OnOk result
        (arguments.new.items ≡ with_routines arguments.old.items routines.now) }
{
    for routine in routines {
        add_code(arguments, routine.code.as_slice())?;
    }
    Ok(())
}

/// Adds the constants of a routine.
fn add_code(arguments: &mut Vec<u64>, code: &[Instr]) -> Result<(), AllocError>
    ensures { OnOk result (arguments.new.items ≡ with_code arguments.old.items code.now) }
{
    for instr in code {
        add_instr(arguments, instr)?;
    }
    Ok(())
}

/// Adds the constant of an instruction, if it has one, and the number after it.
fn add_instr(arguments: &mut Vec<u64>, instr: &Instr) -> Result<(), AllocError>
    ensures { OnOk result (arguments.new.items ≡ with_instr arguments.old.items instr.now) }
{
    if let Instr::Const(_, number) = *instr {
        add_constant(arguments, u64::from(number))?;
        add_constant(arguments, u64::from(number) + 1)?;
    }
    Ok(())
}

/// Adds an argument that isn't there, unless there are enough.
fn add_constant(arguments: &mut Vec<u64>, number: u64) -> Result<(), AllocError>
    ensures { OnOk result (arguments.new.items ≡ with_constant arguments.old.items number) }
{
    if arguments.len() < MAX_ARGUMENTS {
        add_argument(arguments, number)?;
    }
    Ok(())
}

/// Adds an argument, if there is one and it isn't there.
fn add_further(arguments: &mut Vec<u64>, further: Option<u64>) -> Result<(), AllocError>
    ensures { OnOk result (arguments.new.items ≡ with_further arguments.old.items further) }
{
    match further {
        Some(number) => add_argument(arguments, number),
        None => Ok(()),
    }
}

/// Adds an argument, if it isn't there.
fn add_argument(arguments: &mut Vec<u64>, number: u64) -> Result<(), AllocError>
    ensures { OnOk result (arguments.new.items ≡ with_argument arguments.old.items number) }
{
    if arguments.as_slice().contains(&number) {
        return Ok(());
    }
    arguments.push(number)?;
    Ok(())
}

/// The requests whose argument is read.
fn asking_of(
    alloc: Global,
    set: &DriverSet,
    reaching: &Reaching,
) -> Result<Vec<Asking>, AllocError> {
    let mut asking = Vec::new(alloc);
    let devices = set.devices().len().min(255) as u8;
    for device in 0..devices {
        for major in MAJORS {
            if is_read(set, reaching, device, major) {
                asking.push(Asking { device, major })?;
            }
        }
    }
    Ok(asking)
}

/// Whether the driver of a device, or of one under it, reads the argument of a request.
fn is_read(set: &DriverSet, reaching: &Reaching, device: u8, major: Major) -> bool {
    let mut at = Some(device);
    for _device in 0..set.devices().len() {
        let Some(number) = at else {
            return false;
        };
        let Some(its) = set.devices().get(number as usize) else {
            return false;
        };
        if driver_asks(set, reaching, its.driver, major) {
            return true;
        }
        at = its.lower;
    }
    false
}

/// Whether a driver reads the argument of a request: the routine that serves it, or one that other
/// packets may come to.
fn driver_asks(set: &DriverSet, reaching: &Reaching, driver: u8, major: Major) -> bool {
    let Some(its) = set.drivers().get(driver as usize) else {
        return false;
    };
    let routines = its.routines.as_slice();
    for number in 0..routines.len().min(255) as u8 {
        if let Some(routine) = routines.get(number as usize) {
            let comes = its.handler(major) == Some(number) || meets_others(routine);
            if comes && reaching.reads_argument(driver, number, routine.code.as_slice()) {
                return true;
            }
        }
    }
    false
}

/// Whether a routine may be handed packets that it doesn't serve, or finds such.
fn meets_others(routine: &Routine) -> bool {
    !matches!(routine.sort, Sort::Dispatch)
        || routine.code.as_slice().iter().any(|instr| matches!(
            instr,
            Instr::Remove(_, _, _) | Instr::Take(_, _)
        ))
}
