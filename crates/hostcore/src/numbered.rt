//! Keys that have a number.

ghost use Rattle.std.specs.Prelude.{◌≡◌, IsTrue, ℕ};
ghost use Rattle.hostcore.specs.Numbers.{same_count, same_number};

use model::history::Name;

/// A key with a number, by which an index finds it: keys that are equal have the same one.
pub trait Numbered: Copy + Eq {
    ghost number: { Self → ℕ };

    /// Its number.
    fn number(&self) -> u64
        ensures { result ≡ number self.now };

    ghost respects: { (a b : Self) → IsTrue (Self.PartialEq.eq a b) → number a ≡ number b };
}

impl Numbered for u64 {
    ghost number = { λ n. n };

    ghost respects = { same_number };

    fn number(&self) -> u64 {
        *self
    }
}

/// The names of one submitter count up from 0.
impl Numbered for Name {
    ghost number = { λ name. name.count };

    ghost respects = { same_count };

    fn number(&self) -> u64 {
        self.count
    }
}
