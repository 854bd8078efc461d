//! A list that a definition may hold.

ghost use Rattle.std.specs.Prelude.{◌≡◌, List, length, IfSome, option_copied, slice_get};

use std::marker::Model;

/// A `Vec` that contracts see as the list of its elements alone, and not with its room, so that two
/// of them with the same elements are equal.
#[derive(Drop)]
pub struct Items<T> {
    items_of: Vec<T>,
}

impl<T> Model for Items<T> {
    ghost Value = { List T };

    ghost view = { λ a. a.items_of.items };
}

impl<T> Items<T> {
    /// The list of the elements of `elements`.
    pub fn of(elements: Vec<T>) -> Items<T>
        ensures { result ≡ elements.items }
    {
        Items { items_of: elements }
    }

    /// The elements, to be read.
    pub fn as_slice(&self) -> &[T]
        ensures { result.now ≡ self.now }
    {
        self.items_of.as_slice()
    }

    /// The elements as a `Vec` again.
    pub fn into_vec(self) -> Vec<T>
        ensures { result.items ≡ self }
    {
        self.items_of
    }
}
