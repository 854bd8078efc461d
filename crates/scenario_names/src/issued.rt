//! The packets that lines issue, by their names.

ghost use Rattle.std.specs.Prelude.{◌≡◌, ◌+◌, ◌<◌, ◌≤◌, ◌^◌, ◌++◌, [], ◌∷◌, OnOk, length};
ghost use Rattle.scenario_names.specs.Operands.{last_named};

use indexmap::IndexMap;
use std::alloc::{AllocError, Global};
use std::marker::Model;
use text::piece::Piece;

/// The names of the packets that lines issue, in order. A name may stand there more than once: it
/// is that of the last packet that was issued under it, which is found at once. There are at most
/// 65,536: no scenario has more steps.
#[derive(Drop)]
pub struct Issued<'a> {
    names: Vec<Piece<'a>>,
    /// By name, the place of the last packet that has it.
    places: IndexMap<Piece<'a>, u16>,
}

impl<'a> Model for Issued<'a> {
    ghost use Rattle.std.specs.Prelude.{List, ℕ};
    ghost use Rattle.scenario_names.specs.Issued.{IsIndex};

    ghost Value = { List (List ℕ) };

    ghost view = { λ i. i.names.items };

    ghost invariant = { λ i. IsIndex i.places i.names.items };
}

impl<'a> Issued<'a> {
    /// None.
    #[tactic(auto, using(crate::proofs::Issuing::index_empty))]
    pub fn new(alloc: Global) -> Issued<'a>
        ensures { result ≡ [] }
    {
        Issued {
            names: Vec::new(alloc),
            places: IndexMap::new(alloc),
        }
    }

    /// The place of the last packet that has this name.
    pub fn last_named(&self, name: &[u8]) -> Option<u16>
        ensures { result ≡ last_named self.now name.now }
    {
        self.places.get(&Piece::of(name)).copied()
    }

    /// Adds a packet of this name.
    ///
    /// # Errors
    ///
    /// When memory runs out.
    #[tactic(auto, using(crate::proofs::Issuing::index_more))]
    pub fn add(&mut self, name: Piece<'a>) -> Result<(), AllocError>
        requires { length self.old < 2 ^ 16 }
        ensures added { OnOk result (self.new ≡ self.old ++ name.entry ∷ []) }
        ensures few { length self.new ≤ length self.old + 1 }
    {
        let place = self.names.len() as u16;
        self.places.reserve(1)?;
        self.names.push(name.again())?;
        let _before = self.places.insert(name, place)?;
        Ok(())
    }
}
