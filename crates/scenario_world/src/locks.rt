//! The owners of locks.

ghost use Rattle.std.specs.Prelude.{◌≡◌};
ghost use Rattle.model.specs.World.{owner_of};
ghost use Rattle.scenario_world.specs.Expected.{is_owned, is_owner};

use checked::Checked;
use model::event::Lock;

/// Whether a lock has this owner, or none.
pub fn is_owned(machine: &Checked, lock: Lock, owner: Option<u8>) -> bool
    ensures { result ≡ is_owned owner (owner_of machine.now.world.shared.locks lock) }
{
    match machine.shared().owner(lock) {
        Some(its) => is_owner(owner, its),
        None => false,
    }
}

fn is_owner(owner: Option<u8>, its: Option<u8>) -> bool
    ensures { result ≡ is_owner owner its }
{
    match (owner, its) {
        (Some(owner), Some(its)) => its == owner,
        (None, None) => true,
        _ => false,
    }
}
