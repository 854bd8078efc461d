//! What has been seen at the positions of a routine. Few of them are noted, so a table isn't
//! cleared for the next routine: a flag at each position says whether what is there counts.

ghost use Rattle.std.specs.Prelude.{◌≡◌, ◌<◌, [], length, replicate, slice_index_or, slice_set};
ghost use Rattle.std.specs.Prelude.{OnOk};

use crate::seen::Seen;
use absstate::Tracked;
use std::alloc::{AllocError, Global};
use std::marker::Model;

/// What has been seen at each position.
#[derive(Drop)]
pub struct Table {
    /// Whether what is kept at a position counts; else nothing has been seen there.
    noted: Vec<bool>,
    /// What is kept there.
    kept: Vec<Seen>,
    /// What has been seen where nothing is noted.
    nothing: Seen,
}

impl Model for Table {
    ghost use Rattle.std.specs.Prelude.{◌≡◌, ◌≤◌, length, List};
    ghost use Rattle.verifier.specs.declared.seen.Seen.{Seen};
    ghost use Rattle.verifier.specs.Table.{seen_where};

    ghost Value = { List Seen };

    ghost view = { λ t. seen_where t.noted.items t.kept.items };

    ghost invariant = { λ t. (length t.noted.items ≤ length t.kept.items)
        × (t.nothing ≡ Seen.Nothing) };
}

impl Table {
    /// No position.
    pub fn new(alloc: Global) -> Table
        ensures { result ≡ [] }
    {
        Table {
            noted: Vec::new(alloc),
            kept: Vec::new(alloc),
            nothing: Seen::Nothing,
        }
    }

    /// Has so many positions from now on, at which nothing has been seen.
    pub fn open(&mut self, positions: usize) -> Result<(), AllocError>
        ensures { OnOk result (self.new ≡ replicate positions Seen.Nothing) }
    {
        if self.kept.len() < positions {
            self.kept.resize(positions, Seen::Nothing)?;
        }
        self.noted.clear();
        self.noted.resize(positions, false)?;
        Ok(())
    }

    /// How many positions it has.
    #[tactic(auto, using(crate::proofs::Tables::where_long))]
    pub fn len(&self) -> usize
        ensures { result ≡ length self.now }
    {
        self.noted.len()
    }

    /// What has been seen at a position.
    #[tactic(auto, using(crate::proofs::Tables::where_long, crate::proofs::Tables::where_noted, crate::proofs::Tables::where_nothing))]
    pub fn at(&self, at: usize) -> &Seen
        requires { at < length self.now }
        ensures { result.now ≡ slice_index_or self.now at Seen.Nothing }
    {
        if self.noted[at] {
            &self.kept[at]
        } else {
            &self.nothing
        }
    }

    /// Notes what has been seen at a position.
    #[tactic(auto, using(crate::proofs::Tables::where_long, crate::proofs::Tables::where_put))]
    pub fn put(&mut self, at: usize, seen: Seen)
        requires { at < length self.old }
        ensures { self.new ≡ slice_set self.old at seen }
    {
        self.noted[at] = true;
        self.kept[at] = seen;
    }

    /// Notes that a state and no other has been seen at a position.
    #[tactic(auto, using(crate::proofs::Tables::where_long, crate::proofs::Tables::where_put))]
    pub fn put_one(&mut self, at: usize, state: &Tracked)
        requires { at < length self.old }
        ensures { self.new ≡ slice_set self.old at (Seen.One state.now) }
    {
        self.noted[at] = true;
        self.kept[at] = Seen::One(*state);
    }
}
