//! An index of worlds by their keys. Worlds of one key needn't be one: it only says with which
//! others one is to be compared.

use checked::Checked;
use hunt_facts::facts::Facts;
use hunt_facts::keys::write_key;
use hunt_facts::writer::Writer;
use indexmap::IndexMap;
use std::alloc::{AllocError, Global};

/// The worlds that were met, by their keys.
#[derive(Drop)]
pub(crate) struct Index {
    alloc: Global,
    writer: Writer,
    /// By key, the number of the world of that key that was met last.
    last: IndexMap<Vec<u8>, usize>,
    /// By the number of a world, that of the one of the same key that was met before it.
    before: Vec<Option<usize>>,
}

impl Index {
    /// None.
    pub(crate) fn new(alloc: Global) -> Index {
        Index {
            alloc,
            writer: Writer::new(alloc),
            last: IndexMap::new(alloc),
            before: Vec::new(alloc),
        }
    }

    /// The number of the world that was met last among those of the same key as a machine's.
    pub(crate) fn last_like(
        &mut self,
        machine: &Checked,
        facts: &Facts,
    ) -> Result<Option<usize>, AllocError> {
        write_key(&mut self.writer, machine, facts)?;
        Ok(self.last.get(self.writer.bytes()).copied())
    }

    /// The number of the world of the same key that was met before another one.
    pub(crate) fn before(&self, number: usize) -> Option<usize> {
        self.before.get(number).copied()?
    }

    /// Adds the world of a machine, with the next number.
    pub(crate) fn add(&mut self, machine: &Checked, facts: &Facts) -> Result<(), AllocError> {
        let before = self.last_like(machine, facts)?;
        let number = self.before.len();
        self.before.push(before)?;
        let key = Vec::from_slice(self.alloc, self.writer.bytes())?;
        let _other = self.last.insert(key, number)?;
        Ok(())
    }
}
