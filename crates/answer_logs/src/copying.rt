//! Texts that are made one after another.

ghost use Rattle.std.specs.Prelude.{◌≡◌, IfOk, IsOkAnd, false, string_bytes};

use std::alloc::{AllocError, Global};

/// Makes texts one after another, and notes where memory ran out: who makes several needs no exit
/// for each, and asks once, at the end.
#[derive(Clone, Copy)]
pub(crate) struct Copier {
    alloc: Global,
    lacks: bool,
}

impl Copier {
    /// None was made yet.
    pub(crate) fn new(alloc: Global) -> Copier
        ensures { result.lacks ≡ false }
    {
        Copier {
            alloc,
            lacks: false,
        }
    }

    /// A copy of a text.
    pub(crate) fn copy(&mut self, text: &str) -> String
        ensures { self.new.lacks ≡ false → (self.old.lacks ≡ false)
            × (string_bytes result ≡ text.now) }
    {
        self.made(String::from_str(self.alloc, text))
    }

    /// A text that was made, or an empty one where memory ran out.
    pub(crate) fn made(&mut self, text: Result<String, AllocError>) -> String
        ensures { self.new.lacks ≡ false → (self.old.lacks ≡ false)
            × IsOkAnd text (λ text. result ≡ text) }
    {
        match text {
            Ok(text) => text,
            Err(_) => {
                self.lacks = true;
                String::new(self.alloc)
            }
        }
    }

    /// What has these texts, if all could be made.
    ///
    /// # Errors
    ///
    /// When memory ran out where one was made.
    pub(crate) fn finish<T: Drop>(self, whole: T) -> Result<T, AllocError>
        ensures { IfOk result (λ value. (self.lacks ≡ false) × (value ≡ whole)) }
    {
        if self.lacks {
            return Err(AllocError);
        }
        Ok(whole)
    }
}
