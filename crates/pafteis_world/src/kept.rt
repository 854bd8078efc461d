//! The bytes of an answer behind a pointer, for who holds them and knows nothing of them.

ghost use Rattle.std.specs.Prelude.{◌≡◌, ℕ, List, None, true, false, IfSome, IsSome};

use crate::loose::Loose;
use std::alloc::Global;
use std::marker::Model;

/// The bytes of an answer. Contracts see them as a list.
#[derive(Drop)]
pub(crate) struct Bytes {
    pub(crate) held: Vec<u8>,
}

impl Model for Bytes {
    ghost use Rattle.std.specs.Prelude.{ℕ, List};

    ghost Value = { List ℕ };

    ghost view = { λ b. b.held.items };
}

/// Room for bytes, which may be empty. All zero is an empty one. It owns the bytes that it has;
/// where it is let go with bytes in it, their memory is never freed.
#[repr(C)]
#[derive(Drop)]
pub struct Kept {
    /// Whether bytes are there.
    pub live: bool,
    at: *mut u8,
    /// The bytes, if they are there.
    pub ghost bytes: { List ℕ },
}

impl Model for Kept {
    ghost use Rattle.pafteis_world.specs.contracts.kept.Bytes.{the_row};
    ghost use Rattle.pafteis_world.specs.Held.{holds};

    ghost also_owns = { λ k. holds the_row k.live k.at k.bytes };
}

impl Kept {
    /// An empty one.
    pub fn empty() -> Kept
        ensures { result.live ≡ false }
    {
        Kept {
            live: false,
            at: std::ptr::null_mut(),
        }
    }

    /// One with bytes.
    pub(crate) fn of(bytes: Box<Bytes>) -> Kept
        ensures live { result.live ≡ true }
        ensures bytes { result.bytes ≡ bytes.value }
    {
        Kept::holding(Loose::of(bytes))
    }

    /// The bytes that it has, if they are there.
    pub(crate) fn into_bytes(self, alloc: Global) -> Option<Box<Bytes>>
        ensures empty { self.live ≡ false → result ≡ None }
        ensures live { self.live ≡ true → IsSome result }
        ensures bytes { IfSome result (λ bytes. bytes.value ≡ self.bytes) }
    {
        match self.into_loose(alloc) {
            Some(loose) => Some(loose.into_box()),
            None => None,
        }
    }

    fn holding(loose: Loose<Bytes, Global>) -> Kept
        ensures live { result.live ≡ true }
        ensures bytes { result.bytes ≡ loose.value }
    {
        let Loose { at, alloc: _ } = loose;
        Kept {
            live: true,
            at: at as *mut u8,
        }
    }

    fn into_loose(self, alloc: Global) -> Option<Loose<Bytes, Global>>
        ensures empty { self.live ≡ false → result ≡ None }
        ensures live { self.live ≡ true → IsSome result }
        ensures bytes { IfSome result (λ loose. loose.value ≡ self.bytes) }
    {
        let Kept { live, at } = self;
        if live {
            return Some(Loose {
                at: at as *mut Bytes,
                alloc,
            });
        }
        None
    }
}
