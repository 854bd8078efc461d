//! What is read of what the threads of a world share.

ghost use Rattle.std.specs.Prelude.{◌≡◌};
ghost use Rattle.pafteis_world.specs.Driven.{Tells, TellsNumber, TellsWords};
ghost use Rattle.pafteis_world.specs.Read.{request_at, request_of};
ghost use Rattle.machine.specs.Read.{cells_at, owner_at};
ghost use Rattle.machine.specs.Registers.{LendsWords};
ghost use Rattle.machine.specs.Runs.{TellsOf};

use crate::driving::taken;
use crate::handle::Handle;
use machine::World;
use model::event::Lock;
use model::instr::Field;
use model::limits::REGISTERS;
use model::world::Cells;
use pafteis_values::shared::RequestValue;
use std::alloc::Global;

/// The number cells of a device, if there is one of this number.
pub fn cells(alloc: Global, handle: &mut Handle, device: u8) -> Option<Option<Cells>>
    ensures { Tells (λ w. cells_at w device) handle.old result handle.new }
{
    let world = taken(alloc, handle)?;
    let told = world.cells(device);
    *handle = Handle::of(world);
    Some(told)
}

/// The thread that owns a lock, if there is such a lock.
pub fn owner(alloc: Global, handle: &mut Handle, lock: Lock) -> Option<Option<Option<u8>>>
    ensures { Tells (λ w. owner_at w lock) handle.old result handle.new }
{
    let world = taken(alloc, handle)?;
    let told = world.owner(lock);
    *handle = Handle::of(world);
    Some(told)
}

/// What is asked with a packet, if one of this number is live.
pub fn request(alloc: Global, handle: &mut Handle, number: u64) -> Option<Option<RequestValue>>
    ensures { Tells (λ w. request_at w number) handle.old result handle.new }
{
    let world = taken(alloc, handle)?;
    let told = request_in(&world, number);
    *handle = Handle::of(world);
    Some(told)
}

/// The same of a world.
fn request_in(world: &World, number: u64) -> Option<RequestValue>
    ensures { TellsOf world.now (λ w. request_at w number) result }
{
    let argument = world.field(number, Field::Argument);
    let info = world.field(number, Field::Info);
    let major = world.field(number, Field::Major);
    request_of(argument, info, major)
}

/// A request of fields that there may not be.
fn request_of(argument: Option<u64>, info: Option<u64>, major: Option<u64>) -> Option<RequestValue>
    ensures { result ≡ request_of argument info major }
{
    Some(RequestValue {
        argument: argument?,
        info: info?,
        major: major?,
    })
}

/// The words in the registers of the routine on the top of a thread, if one stands there.
pub fn words(alloc: Global, handle: &mut Handle, thread: u8) -> Option<Option<[u64; REGISTERS]>>
    ensures { TellsWords thread handle.old result handle.new }
{
    let world = taken(alloc, handle)?;
    let told = words_in(&world, thread);
    *handle = Handle::of(world);
    Some(told)
}

/// The same of a world.
fn words_in(world: &World, thread: u8) -> Option<[u64; REGISTERS]>
    ensures { LendsWords world.now thread result }
{
    match world.words(thread) {
        Some(words) => Some(*words),
        None => None,
    }
}

/// The number of the packet in a slot, if one stands there.
pub fn number(alloc: Global, handle: &mut Handle, slot: u64) -> Option<Option<u64>>
    ensures { TellsNumber slot handle.old result handle.new }
{
    let world = taken(alloc, handle)?;
    let told = world.number(slot);
    *handle = Handle::of(world);
    Some(told)
}
