//! Packet numbers in a row, which are taken off its front or out of its middle.

ghost use Rattle.std.specs.Prelude.{◌≡◌, ◌+◌, ◌≤◌, ◌<◌, ◌++◌, ◌∷◌, ◌-◌, [], IfOk, IfSome, IsTrue};
ghost use Rattle.std.specs.Prelude.{drop, get_or, length, nat_eq, position, remove};
ghost use Rattle.std.specs.Vec.{vec_capacity};
ghost use Rattle.model.specs.declared.limits.TheConstants.{MAX_ENTRIES};
ghost use Rattle.model.specs.Queues.{head_of, without_head};
ghost use Rattle.devqueue.specs.Rows.{IsRising};

use model::limits::MAX_ENTRIES;
use std::alloc::{AllocError, Global};
use std::marker::Model;

/// How many places a row has in memory. Its numbers are moved to the first of them only where all
/// are used, and then half of them at least are of numbers that were taken off.
const PLACES: usize = 2 * MAX_ENTRIES;

/// At most `MAX_ENTRIES` numbers in a row, with room for all of them from the start.
#[derive(Drop)]
pub(crate) struct Row {
    /// The numbers, behind those that were taken off the front.
    numbers: Vec<u64>,
    /// How many were taken off since the others were moved last.
    gone: usize,
    /// Whether each number is known to be greater than all before it: one is found by halving then.
    rising: bool,
}

impl Model for Row {
    ghost use Rattle.std.specs.Prelude.{ℕ, List, drop};
    ghost use Rattle.std.specs.Vec.{vec_capacity};
    ghost use Rattle.devqueue.specs.Rows.{IsRow};

    ghost Value = { List ℕ };

    ghost view = { λ r. drop r.gone r.numbers.items };

    ghost invariant = { λ r. IsRow r.numbers.items r.gone (vec_capacity r.numbers) r.rising };
}

/// Whether a number is greater than the last of some, if there is one.
fn is_above(n: u64, numbers: &[u64]) -> bool
    ensures { IsTrue result → 0 < length numbers.now
        → get_or numbers.now (length numbers.now - 1) 0 < n }
{
    match numbers.last() {
        Some(last) => *last < n,
        None => true,
    }
}

/// Moves numbers to the front, over the first ones, which are so many.
fn close_up(numbers: &mut Vec<u64>, gone: usize)
    requires { gone ≤ length numbers.old.items }
    ensures moved { numbers.new.items ≡ drop gone numbers.old.items }
    ensures capacity { vec_capacity numbers.new ≡ vec_capacity numbers.old }
{
    let left = numbers.len() - gone;
    numbers.rotate_left(gone);
    numbers.truncate(left);
}

/// Takes the number at a place out of some: those before it move up by one, over the first place.
fn move_up(numbers: &mut [u64], place: usize)
    requires { place < length numbers.old }
    ensures moved { drop 1 numbers.new ≡ remove numbers.old place }
    ensures length { length numbers.new ≡ length numbers.old }
{
    numbers[..=place].rotate_right(1);
}

/// The same among those behind the first ones, which are so many.
fn move_up_behind(numbers: &mut Vec<u64>, gone: usize, place: usize)
    requires { gone + place < length numbers.old.items }
    ensures moved { drop (gone + 1) numbers.new.items ≡ remove (drop gone numbers.old.items) place }
    ensures length { length numbers.new.items ≡ length numbers.old.items }
    ensures capacity { vec_capacity numbers.new ≡ vec_capacity numbers.old }
{
    move_up(&mut numbers[gone..], place);
}

impl Row {
    /// A row without numbers. An error where memory is refused; no other call needs any.
    pub(crate) fn new(alloc: Global) -> Result<Row, AllocError>
        ensures { IfOk result (λ row. row ≡ []) }
    {
        Ok(Row {
            numbers: Vec::with_capacity(alloc, PLACES)?,
            gone: 0,
            rising: true,
        })
    }

    /// The numbers, in order.
    pub(crate) fn as_slice(&self) -> &[u64]
        ensures numbers { result.now ≡ self.now }
        ensures few { length self.now ≤ MAX_ENTRIES }
    {
        &self.numbers[self.gone..]
    }

    /// Adds a number at the end.
    pub(crate) fn push(&mut self, n: u64)
        requires { length self.old < MAX_ENTRIES }
        ensures { self.new ≡ self.old ++ n ∷ [] }
    {
        let above = is_above(n, self.as_slice());
        if self.numbers.len() >= PLACES {
            close_up(&mut self.numbers, self.gone);
            self.gone = 0;
        }
        self.rising = self.rising && above;
        self.numbers.push_reserved(n);
    }

    /// Takes the first number off. None where there is none, and then nothing has changed.
    pub(crate) fn pop_front(&mut self) -> Option<u64>
        ensures first { result ≡ head_of self.old }
        ensures rest { self.new ≡ without_head self.old }
    {
        if self.gone >= self.numbers.len() {
            return None;
        }
        let first = self.numbers[self.gone];
        self.gone += 1;
        self.settle();
        Some(first)
    }

    /// Takes the number at a place out; the others keep their order.
    pub(crate) fn remove(&mut self, place: usize)
        requires { place < length self.old }
        ensures { self.new ≡ remove self.old place }
    {
        let count = self.as_slice().len();
        if place < count / 2 {
            move_up_behind(&mut self.numbers, self.gone, place);
            self.gone += 1;
        } else {
            let _number = self.numbers.remove(self.gone + place);
        }
        self.settle();
    }

    /// A row without numbers begins anew.
    fn settle(&mut self)
        ensures { self.new ≡ self.old }
    {
        if self.gone == self.numbers.len() {
            self.numbers.clear();
            self.gone = 0;
            self.rising = true;
        }
    }

    /// The place of a number's first occurrence, counted from 0: none where it isn't in the row.
    pub(crate) fn place_of(&self, n: u64) -> Option<usize>
        ensures first { result ≡ position (λ entry. nat_eq entry n) self.now }
        ensures within { IfSome result (λ place. place < length self.now) }
    {
        if self.rising {
            return place_in_rising(self.as_slice(), n);
        }
        self.as_slice().iter().position(|entry| *entry == n)
    }
}

/// The place of a number among some of which each is greater than all before it.
fn place_in_rising(numbers: &[u64], n: u64) -> Option<usize>
    requires { IsRising numbers.now }
    ensures first { result ≡ position (λ entry. nat_eq entry n) numbers.now }
    ensures within { IfSome result (λ place. place < length numbers.now) }
{
    match numbers.binary_search(&n) {
        Ok(place) => Some(place),
        Err(_) => None,
    }
}
