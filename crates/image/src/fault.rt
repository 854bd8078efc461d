//! What is wrong with bytes that are no image.

ghost use Rattle.std.specs.Prelude.{◌≡◌};
ghost use Rattle.image.specs.declared.fault.ImageFault.TheVariants.{Memory};

use std::alloc::{AllocError, AllocFailed};
use thiserror::Error;

/// The first fault of bytes that are no image, by its number.
#[derive(Clone, Copy, Debug, PartialEq, Eq, Error)]
#[error("image fault {}", *self as u8)]
pub enum ImageFault {
    /// One of the first four bytes is another.
    Magic = 1,
    /// A field isn't whole.
    Truncated = 2,
    /// Bytes stand after the last device.
    Trailing = 3,
    /// An instruction, sort or form of return that there is none of, or a byte that must be zero.
    BadOpcode = 4,
    /// A number out of its range or naming nothing, or a routine in a role of another sort.
    OverLimit = 5,
    /// A growth was refused.
    Memory = 6,
}

impl From<AllocError> for ImageFault {
    ghost from_gives = { λ _ fault. fault ≡ Memory };

    fn from(_refused: AllocError) -> ImageFault {
        ImageFault::Memory
    }
}

impl<T: Drop> From<AllocFailed<T>> for ImageFault {
    ghost from_gives = { λ _ fault. fault ≡ Memory };

    fn from(_refused: AllocFailed<T>) -> ImageFault {
        ImageFault::Memory
    }
}
