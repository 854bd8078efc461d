//! A world behind a pointer, for who holds it and knows nothing of it.

ghost use Rattle.std.specs.Prelude.{◌≡◌, None, true, false, IfSome, IsSome};
ghost use Rattle.model.specs.Shown.{Shown};

use crate::loose::Loose;
use machine::World;
use std::alloc::Global;
use std::marker::Model;

/// Room for a world, which may be empty. All zero is an empty one. It owns the world that it has;
/// where it is let go with a world in it, that world's memory is never freed.
#[repr(C)]
#[derive(Drop)]
pub struct Handle {
    /// Whether a world is there.
    pub live: bool,
    at: *mut u8,
    /// What the world shows, if one is there.
    pub ghost world: { Shown },
}

impl Model for Handle {
    ghost use Rattle.machine.specs.contracts.world.World.{the_row};
    ghost use Rattle.pafteis_world.specs.Held.{holds};

    ghost also_owns = { λ h. holds the_row h.live h.at h.world };
}

impl Handle {
    /// An empty one.
    pub fn empty() -> Handle
        ensures { result.live ≡ false }
    {
        Handle {
            live: false,
            at: std::ptr::null_mut(),
        }
    }

    /// One with a world.
    pub(crate) fn of(world: Box<World>) -> Handle
        ensures live { result.live ≡ true }
        ensures world { result.world ≡ world.value }
    {
        Handle::holding(Loose::of(world))
    }

    /// The world that it has, if one is there.
    pub(crate) fn into_world(self, alloc: Global) -> Option<Box<World>>
        ensures empty { self.live ≡ false → result ≡ None }
        ensures live { self.live ≡ true → IsSome result }
        ensures world { IfSome result (λ world. world.value ≡ self.world) }
    {
        match self.into_loose(alloc) {
            Some(loose) => Some(loose.into_box()),
            None => None,
        }
    }

    fn holding(loose: Loose<World, Global>) -> Handle
        ensures live { result.live ≡ true }
        ensures world { result.world ≡ loose.value }
    {
        let Loose { at, alloc: _ } = loose;
        Handle {
            live: true,
            at: at as *mut u8,
        }
    }

    fn into_loose(self, alloc: Global) -> Option<Loose<World, Global>>
        ensures empty { self.live ≡ false → result ≡ None }
        ensures live { self.live ≡ true → IsSome result }
        ensures world { IfSome result (λ loose. loose.value ≡ self.world) }
    {
        let Handle { live, at } = self;
        if live {
            return Some(Loose {
                at: at as *mut World,
                alloc,
            });
        }
        None
    }
}
