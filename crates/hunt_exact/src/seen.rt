//! The runs that a search keeps: one for each world that it has met.

ghost use Rattle.std.specs.Prelude.{◌≡◌, ◌++◌, ◌∷◌, [], IfOk, IfSome, OnOk, Some, length};
ghost use Rattle.std.specs.Prelude.{slice_get};

use crate::index::Index;
use checked::Checked;
use hunt_facts::facts::Facts;
use model::event::Event;
use model::items::Items;
use std::alloc::{AllocError, Global};
use std::marker::Model;

/// The runs that a search keeps, in the order in which it met their worlds.
#[derive(Drop)]
pub(crate) struct Seen {
    paths: Vec<Items<Event>>,
    index: Index,
}

impl Model for Seen {
    ghost use Rattle.std.specs.Prelude.{List};
    ghost use Rattle.model.specs.declared.event.Event.{Event};

    ghost Value = { List (List Event) };

    ghost view = { λ s. s.paths.items };
}

impl Seen {
    /// The run of no events alone, whose world is a machine's.
    pub(crate) fn of(alloc: Global, machine: &Checked, facts: &Facts) -> Result<Seen, AllocError>
        ensures { IfOk result (λ seen. seen ≡ [] ∷ []) }
    {
        let mut paths = Vec::new(alloc);
        paths.push(Items::of(Vec::new(alloc)))?;
        let mut index = Index::new(alloc);
        index.add(machine, facts)?;
        Ok(Seen { paths, index })
    }

    /// How many there are.
    pub(crate) fn len(&self) -> usize
        ensures { result ≡ length self.now }
    {
        self.paths.len()
    }

    /// The events of the run of a number.
    pub(crate) fn path(&self, number: usize) -> Option<&[Event]>
        ensures kept { IfSome result (λ path. slice_get self.now number ≡ Some path.now) }
        ensures past { result ≡ None → slice_get self.now number ≡ None }
    {
        match self.paths.get(number) {
            Some(path) => Some(path.as_slice()),
            None => None,
        }
    }

    /// Adds a run, whose world is a machine's.
    pub(crate) fn add(
        &mut self,
        path: Vec<Event>,
        machine: &Checked,
        facts: &Facts,
    ) -> Result<(), AllocError>
        ensures { OnOk result (self.new ≡ self.old ++ path.items ∷ []) }
    {
        self.paths.push(Items::of(path))?;
        self.index.add(machine, facts)?;
        Ok(())
    }

    /// The number of the last run whose world has the same key as a machine's.
    pub(crate) fn last_like(
        &mut self,
        machine: &Checked,
        facts: &Facts,
    ) -> Result<Option<usize>, AllocError>
        ensures { OnOk result (self.new ≡ self.old) }
    {
        let last = self.index.last_like(machine, facts)?;
        Ok(last)
    }

    /// The number of the run before one whose world has the same key.
    pub(crate) fn before(&self, number: usize) -> Option<usize> {
        self.index.before(number)
    }
}
