//! The index.

ghost use Rattle.std.specs.Prelude.{◌≡◌, ◌<◌, ◌≤◌, ◌^◌, ◌+◌, ◌++◌, ◌∷◌, ◌%◌, [], None, Some, ℕ};
ghost use Rattle.std.specs.Prelude.{get_or, length, if◌then◌else◌, IfOk};
ghost use Rattle.std.specs.Option.{option_or};
ghost use Rattle.std.specs.Vec.{vec_capacity};
ghost use Rattle.hostcore.specs.Noted.{get, noted, room};

use crate::numbered::Numbered;
use std::alloc::{AllocError, Global};
use std::marker::Model;

/// What was noted of keys, which are found by their numbers modulo the number of slots: the entries
/// of one slot are linked, from the last to the first. Where keys are numbered one after another,
/// few entries are linked, and neighbours stand side by side.
#[derive(Drop)]
pub struct Index<K: Numbered, V: Copy> {
    slots: usize,
    /// Of each slot, up to the highest that was used, the place after its last entry, or 0.
    heads: Vec<u32>,
    /// Of each entry the place after the one before it in its slot, or 0.
    nexts: Vec<u32>,
    entries: Vec<(K, V)>,
}

impl<K: Numbered, V: Copy> Model for Index<K, V> {
    ghost use Rattle.std.specs.Prelude.{◌<◌, ◌≤◌, ◌^◌, ◌+◌, ◌-◌, length};
    ghost use Rattle.std.specs.Vec.{vec_capacity};
    ghost use Rattle.hostcore.specs.Noted.{Noted};
    ghost use Rattle.hostcore.specs.Linked.{IsLinked};

    ghost Value = { Noted K V };

    ghost view = { λ i. (i.entries.items, i.slots - 1) };

    ghost invariant = { λ i. (0 < i.slots) × (i.slots ≤ 2 ^ 32)
        × (length i.entries.items < i.slots)
        × (i.slots ≤ vec_capacity i.heads)
        × (i.slots ≤ vec_capacity i.nexts + 1)
        × (i.slots ≤ vec_capacity i.entries + 1)
        × IsLinked K.number i.slots i.heads.items i.nexts.items i.entries.items };
}

impl<K: Numbered, V: Copy> Index<K, V> {
    /// An index that has room for so many notes, fewer than 4,294,967,296. An error where memory
    /// for them is refused; no other call needs any.
    pub fn with_room(alloc: Global, most: usize) -> Result<Index<K, V>, AllocError>
        requires few { most < 2 ^ 32 }
        ensures { IfOk result (λ index. index ≡ ([], most)) }
    {
        let slots = most + 1;
        Ok(Index {
            slots,
            heads: Vec::with_capacity(alloc, slots)?,
            nexts: Vec::with_capacity(alloc, most)?,
            entries: Vec::with_capacity(alloc, most)?,
        })
    }

    /// What was noted of a key first.
    pub fn get(&self, key: K) -> Option<V>
        ensures { result ≡ get K.eq self.now key }
    {
        let slot = (key.number() % self.slots as u64) as usize;
        let mut end = self.heads.get(slot).copied().unwrap_or(0) as usize;
        let mut found = None;
        while end > 0 {
            let place = end - 1;
            let (other, value) = self.entries[place];
            if other == key {
                found = Some(value);
            }
            end = self.nexts[place] as usize;
        }
        found
    }

    /// Notes a value of a key.
    pub fn note(&mut self, key: K, value: V)
        requires room { length (noted self.old) < room self.old }
        ensures noted { noted self.new ≡ noted self.old ++ (key, value) ∷ [] }
        ensures found { (other : K) → get K.eq self.new other
            ≡ option_or (get K.eq self.old other) (if K.eq key other then Some value else None) }
        ensures room { room self.new ≡ room self.old }
    {
        let slot = (key.number() % self.slots as u64) as usize;
        reach(&mut self.heads, slot);
        let end = self.entries.len() as u32 + 1;
        self.nexts.push_reserved(self.heads[slot]);
        self.heads[slot] = end;
        self.entries.push_reserved((key, value));
    }
}

/// Adds slots that have no entry, up to this one.
fn reach(heads: &mut Vec<u32>, slot: usize)
    requires room { slot < vec_capacity heads.old }
    ensures reached { slot < length heads.new.items }
    ensures same { (s : ℕ) → get_or heads.new.items s 0 ≡ get_or heads.old.items s 0 }
    ensures room { vec_capacity heads.old ≤ vec_capacity heads.new }
{
    if slot < heads.len() {
        return;
    }
    let reached = heads.resize(slot + 1, 0);
    prove!(reached.is_ok());
    let _ = reached;
}
