//! Lists that note where memory ran out: who adds asks once, at the end.

use std::alloc::{AllocError, Global};

/// A list, and whether an element of it is missing.
#[derive(Drop)]
pub struct Growing<T> {
    items: Vec<T>,
    lacks: bool,
}

impl<T: Copy> Growing<T> {
    /// Nothing yet.
    pub fn new(alloc: Global) -> Growing<T> {
        Growing {
            items: Vec::new(alloc),
            lacks: false,
        }
    }

    /// Forgets all elements. What was missing stays noted.
    pub fn clear(&mut self) {
        self.items.clear();
    }

    /// Adds an element.
    pub fn add(&mut self, item: T) {
        if self.items.push(item).is_err() {
            self.lacks = true;
        }
    }

    /// Adds elements.
    pub fn add_all(&mut self, items: &[T]) {
        if self.items.extend_from_slice(items).is_err() {
            self.lacks = true;
        }
    }

    /// The elements, in order.
    pub fn as_slice(&self) -> &[T] {
        self.items.as_slice()
    }

    /// Whether none was ever missing.
    ///
    /// # Errors
    ///
    /// When memory ran out where one was added.
    pub fn finish(&self) -> Result<(), AllocError> {
        if self.lacks {
            return Err(AllocError);
        }
        Ok(())
    }
}
