//! The walks that a search keeps: one for each place that it has met.

ghost use Rattle.std.specs.Prelude.{◌≡◌, ◌++◌, ◌∷◌, [], IfOk, IfSome, None, OnOk, Some, length};
ghost use Rattle.std.specs.Prelude.{slice_get};

use crate::index::Index;
use model::items::Items;
use std::alloc::{AllocError, Global};
use std::marker::Model;

/// The walks that a search keeps, in the order in which it met their places.
#[derive(Drop)]
pub(crate) struct Seen {
    paths: Vec<Items<u8>>,
    index: Index,
}

impl Model for Seen {
    ghost use Rattle.std.specs.Prelude.{List, ℕ};

    ghost Value = { List (List ℕ) };

    ghost view = { λ s. s.paths.items };
}

impl Seen {
    /// The walk of no moves alone, whose place has a key.
    pub(crate) fn of(alloc: Global, key: Vec<u8>) -> Result<Seen, AllocError>
        ensures { IfOk result (λ seen. seen ≡ [] ∷ []) }
    {
        let mut paths = Vec::new(alloc);
        paths.push(Items::of(Vec::new(alloc)))?;
        let mut index = Index::new(alloc);
        index.add(key)?;
        Ok(Seen { paths, index })
    }

    /// How many there are.
    pub(crate) fn len(&self) -> usize
        ensures { result ≡ length self.now }
    {
        self.paths.len()
    }

    /// The moves of the walk of a number.
    pub(crate) fn path(&self, number: usize) -> Option<&[u8]>
        ensures kept { IfSome result (λ path. slice_get self.now number ≡ Some path.now) }
        ensures past { result ≡ None → slice_get self.now number ≡ None }
    {
        match self.paths.get(number) {
            Some(path) => Some(path.as_slice()),
            None => None,
        }
    }

    /// Adds a walk, whose place has a key.
    pub(crate) fn add(&mut self, path: Vec<u8>, key: Vec<u8>) -> Result<(), AllocError>
        ensures { OnOk result (self.new ≡ self.old ++ path.items ∷ []) }
    {
        self.paths.push(Items::of(path))?;
        self.index.add(key)?;
        Ok(())
    }

    /// The number of the last walk whose place has a key.
    pub(crate) fn last_like(&self, key: &[u8]) -> Option<usize> {
        self.index.last_like(key)
    }

    /// The number of the walk before one whose place has the same key.
    pub(crate) fn before(&self, number: usize) -> Option<usize> {
        self.index.before(number)
    }

    /// All of them.
    pub(crate) fn into_paths(self) -> Vec<Items<u8>>
        ensures { result.items ≡ self }
    {
        self.paths
    }
}
