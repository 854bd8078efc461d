//! A number for each place.

ghost use Rattle.std.specs.Prelude.{◌≡◌, ◌+◌, ◌<◌, ◌^◌, IfOk, length, replicate, slice_set};
ghost use Rattle.devqueue.specs.Rings.{after, AreAlone};

use std::alloc::{AllocError, Global};
use std::marker::Model;

/// A number for each of so many places, which are numbered from 0: the place's own, until another
/// one is set. For a place with its own a zero is kept, or else one more than the number, so that
/// all that a new one takes is memory of zeros; and 32 bits, so that more of them lie in a cache.
#[derive(Drop)]
pub(crate) struct Numbers {
    kept: Vec<u32>,
}

impl Model for Numbers {
    ghost use Rattle.std.specs.Prelude.{ℕ, List};
    ghost use Rattle.devqueue.specs.Numbers.{numbers_kept};

    ghost Value = { List ℕ };

    ghost view = { λ a. numbers_kept 0 a.kept.items };
}

/// So many zeros.
fn zeros(alloc: Global, count: usize) -> Result<Vec<u32>, AllocError>
    ensures { IfOk result (λ kept. kept.items ≡ replicate count 0) }
{
    Ok(vec![in alloc; 0; count]?)
}

impl Numbers {
    /// So many places, each with its own number. An error where memory is refused.
    pub(crate) fn new(alloc: Global, count: usize) -> Result<Numbers, AllocError>
        ensures { IfOk result (AreAlone count) }
    {
        Ok(Numbers {
            kept: zeros(alloc, count)?,
        })
    }

    /// The number of a place.
    pub(crate) fn at(&self, place: usize) -> usize
        requires { place < length self.now }
        ensures { result ≡ after self.now place }
    {
        let kept = self.kept[place] as usize;
        if kept == 0 { place } else { kept - 1 }
    }

    /// Sets the number of a place.
    pub(crate) fn set(&mut self, place: usize, number: usize)
        requires place { place < length self.old }
        requires number { number + 1 < 2 ^ 32 }
        ensures { self.new ≡ slice_set self.old place number }
    {
        self.kept[place] = (number + 1) as u32;
    }
}
