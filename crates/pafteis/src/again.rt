//! A world begun anew.

ghost use Rattle.std.specs.Prelude.{◌≡◌};
ghost use Rattle.pafteis.specs.Driving.{BeginsAnew, Resets, done_status};

use crate::texts::{NO_MEMORY, WRONG_ARGUMENT};
use crate::worlds::{DONE, HAS_WORLD, NO_WORLD, may_have};
use pafteis_world::handle::Handle;
use pafteis_world::{again, driving};
use std::alloc::Global;

/// Begins a world anew: it is that of the same set before its first event, with so many threads. 3
/// where memory is refused, and the world stays; 4 no such number of threads, 5 there is no world.
#[unsafe(no_mangle)]
pub extern "C" fn pafteis_world_reset(alloc: Global, world: &mut Handle, threads: u8) -> u32
    ensures { Resets threads world.old world.new result }
{
    if !may_have(threads) {
        return WRONG_ARGUMENT;
    }
    status_of(again::reset(alloc, world, threads))
}

/// Makes in an empty handle another world of a world's set, before its first event, with so many
/// threads; 6 where that handle has a world.
#[unsafe(no_mangle)]
pub extern "C" fn pafteis_world_another(
    alloc: Global,
    world: &mut Handle,
    threads: u8,
    other: &mut Handle,
) -> u32
    ensures { BeginsAnew threads world.old world.new other.old other.new result }
{
    if !may_have(threads) {
        return WRONG_ARGUMENT;
    }
    if driving::stands(alloc, other) {
        return HAS_WORLD;
    }
    status_of(again::another(alloc, world, threads, other))
}

/// The status where this was done.
fn status_of(done: Option<bool>) -> u32
    ensures { result ≡ done_status done }
{
    match done {
        Some(true) => DONE,
        Some(false) => NO_MEMORY,
        None => NO_WORLD,
    }
}
