//! What is read of what the threads of a world share.

ghost use Rattle.machine.specs.Read.{cells_at, owner_at};
ghost use Rattle.pafteis.specs.Driving.{TellsIf, TellsNumber, TellsWords};
ghost use Rattle.pafteis_values.specs.Shared.{cells_value, lock_named, owner_value};
ghost use Rattle.pafteis_world.specs.Read.{request_at};

use crate::texts::WRONG_ARGUMENT;
use crate::worlds::{DONE, NO_WORLD};
use model::limits::REGISTERS;
use pafteis_values::shared::{
    CellsValue, OwnerValue, RequestValue, cells_value, lock_of, owner_value,
};
use pafteis_world::handle::Handle;
use pafteis_world::reading;
use std::alloc::Global;

/// Tells the number cells of a device; 4 where there is none of this number.
#[unsafe(no_mangle)]
pub extern "C" fn pafteis_world_cells(
    alloc: Global,
    world: &mut Handle,
    device: u8,
    cells: &mut CellsValue,
) -> u32
    ensures { TellsIf (λ w. cells_at w device) cells_value world.old world.new cells.old cells.new
        result }
{
    match reading::cells(alloc, world, device) {
        Some(Some(told)) => {
            *cells = cells_value(&told);
            DONE
        }
        Some(None) => WRONG_ARGUMENT,
        None => NO_WORLD,
    }
}

/// Tells who owns a lock: 0 to 7 a spin lock of the device, 8 the system cancel spin lock. 4 where
/// there is no such lock.
#[unsafe(no_mangle)]
pub extern "C" fn pafteis_world_lock(
    alloc: Global,
    world: &mut Handle,
    device: u8,
    lock: u8,
    owner: &mut OwnerValue,
) -> u32
    ensures { TellsIf (λ w. owner_at w (lock_named device lock)) owner_value world.old world.new
        owner.old owner.new result }
{
    match reading::owner(alloc, world, lock_of(device, lock)) {
        Some(Some(told)) => {
            *owner = owner_value(told);
            DONE
        }
        Some(None) => WRONG_ARGUMENT,
        None => NO_WORLD,
    }
}

/// Tells what is asked with a live packet; 4 where none of this number is live.
#[unsafe(no_mangle)]
pub extern "C" fn pafteis_world_request(
    alloc: Global,
    world: &mut Handle,
    number: u64,
    request: &mut RequestValue,
) -> u32
    ensures { TellsIf (λ w. request_at w number) (λ r. r) world.old world.new request.old
        request.new result }
{
    match reading::request(alloc, world, number) {
        Some(Some(told)) => {
            *request = told;
            DONE
        }
        Some(None) => WRONG_ARGUMENT,
        None => NO_WORLD,
    }
}

/// The words in the registers of a routine.
#[repr(C)]
#[derive(Clone, Copy)]
pub struct WordsValue {
    /// Of r0 to r15.
    pub words: [u64; REGISTERS],
}

/// Tells the words in the registers of the routine on the top of a thread; 4 where none stands
/// there.
#[unsafe(no_mangle)]
pub extern "C" fn pafteis_world_words(
    alloc: Global,
    world: &mut Handle,
    thread: u8,
    words: &mut WordsValue,
) -> u32
    ensures { TellsWords thread world.old world.new words.old words.new result }
{
    match reading::words(alloc, world, thread) {
        Some(Some(told)) => {
            *words = WordsValue { words: told };
            DONE
        }
        Some(None) => WRONG_ARGUMENT,
        None => NO_WORLD,
    }
}

/// Tells the number of the packet in a slot; 4 where none stands there.
#[unsafe(no_mangle)]
pub extern "C" fn pafteis_world_number(
    alloc: Global,
    world: &mut Handle,
    slot: u64,
    number: &mut u64,
) -> u32
    ensures { TellsNumber slot world.old world.new number.old number.new result }
{
    match reading::number(alloc, world, slot) {
        Some(Some(told)) => {
            *number = told;
            DONE
        }
        Some(None) => WRONG_ARGUMENT,
        None => NO_WORLD,
    }
}
