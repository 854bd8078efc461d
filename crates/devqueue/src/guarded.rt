//! A queue that a spin lock guards.

ghost use Rattle.std.specs.Prelude.{◌≡◌, ◌≤◌, ◌<◌, [], IfOk, length, slice_get};
ghost use Rattle.model.specs.declared.limits.TheConstants.{MAX_ENTRIES};
ghost use Rattle.model.specs.Queues.{is_full, inserted, head_of, without_head};
ghost use Rattle.model.specs.Queues.{is_linked, unlinked};

use crate::row::Row;
use model::limits::MAX_ENTRIES;
use std::alloc::{AllocError, Global};
use std::marker::Model;

/// A plain or cancelable queue of a driver: packet numbers in order, at most `MAX_ENTRIES`, with
/// room for all of them from the start. Its users hold the spin lock that guards it.
#[derive(Drop)]
pub struct Guarded {
    entries: Row,
}

impl Model for Guarded {
    ghost use Rattle.std.specs.Prelude.{ℕ, List};

    ghost Value = { List ℕ };

    ghost view = { λ q. q.entries };
}

impl Guarded {
    /// An empty queue. An error where memory for all its entries is refused; no other call needs
    /// any.
    pub fn new(alloc: Global) -> Result<Guarded, AllocError>
        ensures { IfOk result (λ queue. queue ≡ []) }
    {
        Ok(Guarded {
            entries: Row::new(alloc)?,
        })
    }

    /// The number of entries, 0 to `MAX_ENTRIES`.
    pub fn len(&self) -> usize
        ensures entries { result ≡ length self.now }
        ensures fits { length self.now ≤ MAX_ENTRIES }
    {
        self.entries.as_slice().len()
    }

    /// Whether there is room for no further entry.
    pub fn is_full(&self) -> bool
        ensures { result ≡ is_full self.now }
    {
        self.len() >= MAX_ENTRIES
    }

    /// Puts a packet at the back, also where it stands in the queue already.
    pub fn insert(&mut self, n: u64)
        requires { length self.old < MAX_ENTRIES }
        ensures { self.new ≡ inserted self.old n }
    {
        self.entries.push(n);
    }

    /// The first entry, which stays: none where the queue is empty.
    pub fn head(&self) -> Option<u64>
        ensures { result ≡ head_of self.now }
    {
        self.entries.as_slice().first().copied()
    }

    /// The entry at a place, from the front: none where there are no more.
    pub fn entry(&self, place: usize) -> Option<u64>
        ensures { result ≡ slice_get self.now place }
    {
        self.entries.as_slice().get(place).copied()
    }

    /// Whether a packet has an entry.
    #[tactic(auto, using(crate::proofs::Unlinked::first_entry))]
    pub fn has(&self, n: u64) -> bool
        ensures { result ≡ is_linked self.now n }
    {
        self.entries.place_of(n).is_some()
    }

    /// Takes the first entry off. None where the queue is empty, and then nothing has changed.
    pub fn remove_head(&mut self) -> Option<u64>
        ensures head { result ≡ head_of self.old }
        ensures rest { self.new ≡ without_head self.old }
    {
        self.entries.pop_front()
    }

    /// Takes the first entry of a packet off; the others keep their order. It answers false, and
    /// nothing has changed, exactly where the packet has no entry.
    #[tactic(auto, using(crate::proofs::Unlinked::first_entry))]
    pub fn unlink(&mut self, n: u64) -> bool
        ensures found { result ≡ is_linked self.old n }
        ensures rest { self.new ≡ unlinked self.old n }
    {
        let Some(place) = self.entries.place_of(n) else {
            return false;
        };
        self.entries.remove(place);
        true
    }
}
