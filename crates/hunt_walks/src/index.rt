//! An index of places by their keys. Places of one key needn't be one: it only says with which
//! others one is to be compared.

use indexmap::IndexMap;
use std::alloc::{AllocError, Global};

/// Places by their keys.
#[derive(Drop)]
pub(crate) struct Index {
    /// By key, the number of the place of that key that was met last.
    last: IndexMap<Vec<u8>, usize>,
    /// By the number of a place, that of the one of the same key that was met before it.
    before: Vec<Option<usize>>,
}

impl Index {
    /// None.
    pub(crate) fn new(alloc: Global) -> Index {
        Index {
            last: IndexMap::new(alloc),
            before: Vec::new(alloc),
        }
    }

    /// The number of the place of a key that was met last.
    pub(crate) fn last_like(&self, key: &[u8]) -> Option<usize> {
        self.last.get(key).copied()
    }

    /// The number of the place of the same key that was met before another one.
    pub(crate) fn before(&self, number: usize) -> Option<usize> {
        self.before.get(number).copied()?
    }

    /// Adds a place by its key, with the next number.
    pub(crate) fn add(&mut self, key: Vec<u8>) -> Result<(), AllocError> {
        let before = self.last_like(key.as_slice());
        let number = self.before.len();
        self.before.push(before)?;
        let _other = self.last.insert(key, number)?;
        Ok(())
    }
}
