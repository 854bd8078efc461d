//! Threads that go on while the locks that others wait for keep their owners.

ghost use Rattle.std.specs.Prelude.{◌≡◌, ◌⊎◌, ◌++◌, [], ◌∷◌, IfOk, IsTrue};
ghost use Rattle.scenario_world.specs.Goers.{AreGoers, HasLock, are_owned, awaited_by};

use crate::going::is_busy_at;
use crate::locks::is_owned;
use checked::Checked;
use model::event::Lock;
use std::alloc::{AllocError, Global};
use tell_audit::ring::{sought_by, waits_for};
use tell_uses::standing::top_frame;

/// A lock that a thread waits for, and the one that owns it.
#[derive(Clone, Copy)]
pub struct Awaited {
    pub lock: Lock,
    pub owner: u8,
}

/// Of so many threads those that go on, the lowest first, and the locks that others wait for.
#[derive(Drop)]
pub struct Goers {
    pub threads: Vec<u8>,
    pub awaited: Vec<Awaited>,
}

/// Which ones of so many threads go on, and for which locks others wait.
///
/// # Errors
///
/// When memory runs out.
pub fn goers_among(alloc: Global, machine: &Checked, threads: u8) -> Result<Goers, AllocError>
    ensures { IfOk result (AreGoers machine.now.set machine.now.world threads) }
{
    let mut going = Vec::new(alloc);
    let mut awaited = Vec::new(alloc);
    for thread in 0..threads {
        if is_busy_at(machine, thread) {
            match awaited_by(machine, thread) {
                None => going.push(thread)?,
                Some(one) => add_awaited(&mut awaited, one)?,
            }
        }
    }
    Ok(Goers {
        threads: going,
        awaited,
    })
}

/// Whether these locks have the owners that they had.
pub fn are_owned(machine: &Checked, awaited: &[Awaited]) -> bool
    ensures { result ≡ are_owned machine.now.world.shared.locks awaited.now }
{
    for one in awaited {
        if !is_owned(machine, one.lock, Some(one.owner)) {
            return false;
        }
    }
    true
}

/// The lock that a thread waits for, if it does.
fn awaited_by(machine: &Checked, thread: u8) -> Option<Awaited>
    ensures { result ≡ awaited_by machine.now.set machine.now.world thread }
{
    let top = top_frame(machine, thread)?;
    let lock = sought_by(machine, top)?;
    let owner = waits_for(machine, thread)?;
    Some(Awaited { lock, owner })
}

/// Adds a lock to others, unless it is among them.
fn add_awaited(awaited: &mut Vec<Awaited>, one: Awaited) -> Result<(), AllocError>
    ensures { IfOk result (λ _.
        (HasLock one.lock awaited.old.items × (awaited.new.items ≡ awaited.old.items))
        ⊎ (awaited.new.items ≡ awaited.old.items ++ one ∷ [])) }
{
    if has_lock(awaited.as_slice(), one.lock) {
        return Ok(());
    }
    awaited.push(one)?;
    Ok(())
}

/// Whether a lock is among others.
fn has_lock(awaited: &[Awaited], lock: Lock) -> bool
    ensures { IsTrue result → HasLock lock awaited.now }
{
    for one in awaited {
        if one.lock == lock {
            return true;
        }
    }
    false
}
