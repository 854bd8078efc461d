//! A text that is added to piece by piece, and that notes where memory ran out: who adds needs no
//! exit for each piece, and asks once, at the end.
#![tactic(auto)]

ghost use Rattle.std.specs.Prelude.{◌≡◌, ◌++◌, [], IfOk, IsOk, decimal, false, string_bytes};

use itoa::Buffer;
use std::alloc::{AllocError, Global};

/// A text, and whether something of it is missing.
#[derive(Drop)]
pub struct Words {
    pub text: String,
    pub lacks: bool,
}

impl Words {
    /// No text yet.
    pub fn new(alloc: Global) -> Words
        ensures text { string_bytes result.text ≡ [] }
        ensures whole { result.lacks ≡ false }
    {
        Words {
            text: String::new(alloc),
            lacks: false,
        }
    }

    /// Adds a piece.
    pub fn add(&mut self, piece: &str)
        ensures { self.new.lacks ≡ false → (self.old.lacks ≡ false)
            × (string_bytes self.new.text ≡ string_bytes self.old.text ++ piece.now) }
    {
        if self.text.push_str(piece).is_err() {
            self.lacks = true;
        }
    }

    /// Adds a number, in decimal digits.
    pub fn add_number(&mut self, number: u64)
        ensures { self.new.lacks ≡ false → (self.old.lacks ≡ false)
            × (string_bytes self.new.text ≡ string_bytes self.old.text ++ decimal number) }
    {
        let mut buffer = Buffer::new();
        self.add(buffer.format(number))
    }

    /// Notes what became of a piece that another function added to the text.
    pub fn note(&mut self, done: Result<(), AllocError>)
        ensures text { self.new.text ≡ self.old.text }
        ensures whole { self.new.lacks ≡ false → (self.old.lacks ≡ false) × IsOk done }
    {
        if done.is_err() {
            self.lacks = true;
        }
    }

    /// The text, if nothing of it is missing.
    ///
    /// # Errors
    ///
    /// When memory ran out where something was added.
    pub fn finish(self) -> Result<String, AllocError>
        ensures { IfOk result (λ text. (self.lacks ≡ false) × (text ≡ self.text)) }
    {
        if self.lacks {
            return Err(AllocError);
        }
        Ok(self.text)
    }
}
