//! Where several lines stand.

ghost use Rattle.std.specs.Prelude.{◌≡◌, ◌++◌, ◌∷◌, [], IfOk, OnOk, slice_get};
ghost use Rattle.text.specs.Places.{numbers};

use crate::spot::Spot;
use std::alloc::{AllocError, Global};
use std::marker::Model;

/// Where several lines of a text stand.
#[derive(Drop)]
pub struct Spots {
    spots: Vec<Spot>,
}

impl Model for Spots {
    ghost use Rattle.std.specs.Prelude.{List};
    ghost use Rattle.text.specs.declared.spot.Spot.{Spot};

    ghost Value = { List Spot };

    ghost view = { λ all. all.spots.items };
}

impl Spots {
    /// None.
    pub fn new(alloc: Global) -> Spots
        ensures { result ≡ [] }
    {
        Spots {
            spots: Vec::new(alloc),
        }
    }

    /// Adds one more.
    ///
    /// # Errors
    ///
    /// When memory runs out.
    pub fn push(&mut self, spot: Spot) -> Result<(), AllocError>
        ensures spots { OnOk result (self.new ≡ self.old ++ spot ∷ []) }
        ensures numbers { OnOk result (numbers self.new ≡ numbers self.old ++ spot.number ∷ []) }
    {
        self.spots.push(spot)?;
        Ok(())
    }

    /// The one of an index, from 0.
    pub fn get(&self, index: usize) -> Option<Spot>
        ensures { result ≡ slice_get self.now index }
    {
        self.spots.get(index).copied()
    }

    /// All of them, in order.
    pub fn as_slice(&self) -> &[Spot]
        ensures { result.now ≡ self.now }
    {
        self.spots.as_slice()
    }

    /// The numbers of the lines, in order.
    ///
    /// # Errors
    ///
    /// When memory runs out.
    pub fn numbers(&self, alloc: Global) -> Result<Vec<u64>, AllocError>
        ensures { IfOk result (λ all. all.items ≡ numbers self.now) }
    {
        self.spots.iter().map(|spot| spot.number).collect(alloc)
    }
}
