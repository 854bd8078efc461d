//! A set's world, begun anew.

ghost use Rattle.std.specs.Prelude.{◌≡◌, ◌≤◌, IfSome, false};
ghost use Rattle.model.specs.declared.limits.TheConstants.{MAX_THREADS};
ghost use Rattle.model.specs.Shown.{Shown};
ghost use Rattle.model.specs.Typable.{IsTypable};
ghost use Rattle.pafteis_world.specs.Again.{BeginsAnew, IsBegun, Resets};
ghost use Rattle.pafteis_world.specs.Driven.{world_in};

use crate::driving::taken;
use crate::handle::Handle;
use driver_set::DriverSet;
use machine::World;
use std::alloc::Global;
use verifier::verify;

/// The world of a set before its first event, with so many threads. Nothing where memory is
/// refused, or the set isn't one that is accepted.
fn begun(alloc: Global, set: &DriverSet, threads: u8) -> Option<Box<World>>
    requires some { 1 ≤ threads }
    requires few { threads ≤ MAX_THREADS }
    ensures { IfSome result (λ world. IsBegun set.now threads world.value) }
{
    let Ok(copy) = set.copy(alloc) else {
        return None;
    };
    let Ok(accepted) = verify(alloc, copy) else {
        return None;
    };
    let Ok(world) = World::new(alloc, accepted, threads) else {
        return None;
    };
    match Box::new(alloc, world) {
        Ok(boxed) => Some(boxed),
        Err(_refused) => None,
    }
}

/// Puts in the place of a handle's world that of the same set before its first event, with so many
/// threads, and answers that it did. Where memory is refused the world stays.
pub fn reset(alloc: Global, handle: &mut Handle, threads: u8) -> Option<bool>
    requires some { 1 ≤ threads }
    requires few { threads ≤ MAX_THREADS }
    ensures { Resets threads handle.old result handle.new }
{
    let world = taken(alloc, handle)?;
    match begun(alloc, world.set(), threads) {
        Some(fresh) => {
            *handle = Handle::of(fresh);
            Some(true)
        }
        None => {
            *handle = Handle::of(world);
            Some(false)
        }
    }
}

/// Puts the world of the same set before its first event, with so many threads, into an empty
/// handle, and answers that it did. Where memory is refused that handle stays empty.
pub fn another(alloc: Global, handle: &mut Handle, threads: u8, into: &mut Handle) -> Option<bool>
    requires some { 1 ≤ threads }
    requires few { threads ≤ MAX_THREADS }
    requires empty { into.old.live ≡ false }
    ensures { BeginsAnew threads handle.old result handle.new into.new }
{
    let world = taken(alloc, handle)?;
    let fresh = begun(alloc, world.set(), threads);
    *handle = Handle::of(world);
    match fresh {
        Some(fresh) => {
            *into = Handle::of(fresh);
            Some(true)
        }
        None => Some(false),
    }
}
