//! Lists of slots that are linked through the slots.

ghost use Rattle.std.specs.Prelude.{◌≡◌, ◌+◌, ◌<◌, ◌^◌, ℕ, [], IfOk, IfSome, IsTrue, None, Some};
ghost use Rattle.std.specs.Prelude.{false, length, replicate, slice_get, true};
ghost use Rattle.model.specs.Queues.{head_of, inserted, is_linked, unlinked, without_head};
ghost use Rattle.devqueue.specs.Linked.{IsOnce, is_list};
ghost use Rattle.devqueue.specs.Lists.{entries_of, is_free, with_entries};

use crate::rings::Rings;
use std::alloc::{AllocError, Global};
use std::marker::Model;

/// Lists of slots, numbered from 0. A slot is in one list at most. For each slot the list that it
/// is in is kept, and the one before and the one after it, so no call searches; and no call but
/// `new` needs memory.
#[derive(Drop)]
pub struct Links {
    rings: Rings,
    list_of: Vec<Option<u32>>,
}

impl Model for Links {
    ghost use Rattle.std.specs.Prelude.{length};
    ghost use Rattle.devqueue.specs.Lists.{Lists};
    ghost use Rattle.devqueue.specs.Linked.{AreLinked, lists_shown};

    ghost Value = { Lists };

    ghost view = { λ a. record {
      slots = length a.list_of.items;
      lists = lists_shown a.rings a.list_of.items;
    } };

    ghost invariant = { λ a.
        AreLinked a.rings a.list_of.items (lists_shown a.rings a.list_of.items) };
}

/// For so many slots, that each is in no list.
fn in_no_list(alloc: Global, slots: usize) -> Result<Vec<Option<u32>>, AllocError>
    ensures { IfOk result (λ list_of. list_of.items ≡ replicate slots None) }
{
    Ok(vec![in alloc; None; slots]?)
}

impl Links {
    /// So many lists, all empty, for so many slots, less than 2^32 together. An error where memory
    /// is refused.
    pub fn new(alloc: Global, slots: usize, lists: usize) -> Result<Links, AllocError>
        requires { slots + lists < 2 ^ 32 }
        ensures { IfOk result (λ links. links
            ≡ record { slots = slots; lists = replicate lists [] }) }
    {
        Ok(Links {
            rings: Rings::new(alloc, slots + lists)?,
            list_of: in_no_list(alloc, slots)?,
        })
    }

    /// The list that a slot is in.
    fn list_of(&self, slot: usize) -> Option<usize>
        ensures { (list : ℕ)
            → is_linked (entries_of self.now list) slot ≡ is_list list result }
    {
        match self.list_of.get(slot) {
            Some(Some(list)) => Some(*list as usize),
            _ => None,
        }
    }

    /// Whether a slot is in no list.
    pub fn is_free(&self, slot: usize) -> bool
        ensures { result ≡ is_free self.now slot }
    {
        match self.list_of.get(slot) {
            Some(list) => list.is_none(),
            None => true,
        }
    }

    /// The first slot of a list, which stays: none where the list is empty.
    pub fn front(&self, list: usize) -> Option<usize>
        requires { list < length self.now.lists }
        ensures head { result ≡ head_of (entries_of self.now list) }
        ensures slot { IfSome result (λ slot. slot < self.now.slots) }
    {
        let slot = self.rings.next(self.list_of.len() + list);
        if slot < self.list_of.len() {
            Some(slot)
        } else {
            None
        }
    }

    /// The slot after one that is in a list, which both stay there: none where it is the last.
    pub fn next(&self, slot: usize) -> Option<usize>
        requires { is_free self.now slot ≡ false }
        ensures { (list place : ℕ) → slice_get (entries_of self.now list) place ≡ Some slot
            → result ≡ slice_get (entries_of self.now list) (place + 1) }
    {
        let next = self.rings.next(slot);
        if next < self.list_of.len() {
            Some(next)
        } else {
            None
        }
    }

    /// No slot stands in a list twice: a law of all lists, which runs nothing.
    pub fn slots_stand_once(&self)
        ensures { (list : ℕ) → IsOnce (entries_of self.now list) }
    {
        let _slots = self.list_of.len();
    }

    /// A slot that is in no list goes to the back of a list.
    pub fn push_back(&mut self, list: usize, slot: usize)
        requires list { list < length self.old.lists }
        requires slot { slot < self.old.slots }
        requires free { IsTrue (is_free self.old slot) }
        ensures { let entries = entries_of self.old list in
            self.new ≡ with_entries self.old list (inserted entries slot) }
    {
        self.rings.join(slot, self.list_of.len() + list);
        self.list_of[slot] = Some(list as u32);
    }

    /// A slot leaves the list that it is in, which no code needs to know.
    fn leave(&mut self, _list: usize, slot: usize)
        requires { is_linked (entries_of self.old _list) slot ≡ true }
        ensures left { let entries = entries_of self.old _list in
            self.new ≡ with_entries self.old _list (unlinked entries slot) }
        ensures free { IsTrue (is_free self.new slot) }
    {
        self.rings.leave(slot);
        self.list_of[slot] = None;
    }

    /// Takes the first slot off a list: it is in no list then. None where the list is empty, and
    /// then nothing has changed.
    #[tactic(auto, using(crate::proofs::Seen::first_linked, crate::proofs::Seen::first_unlinked, crate::proofs::Seen::nothing_first, crate::proofs::Seen::put_back))]
    pub fn pop_front(&mut self, list: usize) -> Option<usize>
        requires { list < length self.old.lists }
        ensures head { result ≡ head_of (entries_of self.old list) }
        ensures rest { self.new
            ≡ with_entries self.old list (without_head (entries_of self.old list)) }
        ensures slot { IfSome result (λ slot. slot < self.old.slots) }
        ensures free { IfSome result (λ slot. IsTrue (is_free self.new slot)) }
    {
        let slot = self.front(list)?;
        self.leave(list, slot);
        Some(slot)
    }

    /// Takes a slot out of a list, wherever it stands there: it is in no list then. False exactly
    /// where it isn't in that list, and then nothing has changed.
    pub fn unlink(&mut self, list: usize, slot: usize) -> bool
        ensures found { result ≡ is_linked (entries_of self.old list) slot }
        ensures rest { self.new
            ≡ with_entries self.old list (unlinked (entries_of self.old list) slot) }
        ensures free { IsTrue result → IsTrue (is_free self.new slot) }
    {
        if self.list_of(slot) != Some(list) {
            return false;
        }
        self.leave(list, slot);
        true
    }
}
