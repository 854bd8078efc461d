//! Nodes in rings.

ghost use Rattle.std.specs.Prelude.{◌≡◌, ◌<◌, ◌^◌, IfOk, length};
ghost use Rattle.devqueue.specs.Rings.{after, AreAlone, HasJoined, HasLeft};

use crate::numbers::Numbers;
use std::alloc::{AllocError, Global};
use std::marker::Model;

/// Nodes, numbered from 0, each of which stands in one ring: it has a next and a previous one, or
/// is alone and has itself for both. No call but `new` needs memory, and none searches. There are
/// less than 2^32.
#[derive(Drop)]
pub struct Rings {
    next: Numbers,
    previous: Numbers,
}

impl Model for Rings {
    ghost use Rattle.std.specs.Prelude.{ℕ, List};
    ghost use Rattle.devqueue.specs.Rings.{AreInverse};

    ghost Value = { List ℕ };

    ghost view = { λ r. r.next };

    ghost invariant = { λ r. AreInverse r.next r.previous };
}

impl Rings {
    /// So many nodes, each alone. An error where memory for them is refused.
    pub fn new(alloc: Global, count: usize) -> Result<Rings, AllocError>
        requires { count < 2 ^ 32 }
        ensures { IfOk result (λ rings. AreAlone count rings) }
    {
        Ok(Rings {
            next: Numbers::new(alloc, count)?,
            previous: Numbers::new(alloc, count)?,
        })
    }

    /// The node after a node.
    pub fn next(&self, node: usize) -> usize
        requires { node < length self.now }
        ensures { result ≡ after self.now node }
    {
        self.next.at(node)
    }

    /// A node leaves its ring, and is alone.
    pub fn leave(&mut self, node: usize)
        requires { node < length self.old }
        ensures { HasLeft self.old node self.new }
    {
        let next = self.next.at(node);
        let previous = self.previous.at(node);
        self.next.set(previous, next);
        self.previous.set(next, previous);
        self.next.set(node, node);
        self.previous.set(node, node);
    }

    /// A node that is alone goes into the ring of another one, before it.
    pub fn join(&mut self, node: usize, place: usize)
        requires node { node < length self.old }
        requires place { (place < length self.old) × (node < place) }
        requires alone { after self.old node ≡ node }
        ensures { HasJoined self.old node place self.new }
    {
        let previous = self.previous.at(place);
        self.next.set(previous, node);
        self.previous.set(place, node);
        self.next.set(node, place);
        self.previous.set(node, previous);
    }
}
