//! The spin locks of a run: which thread owns each, and the level at which a thread runs.
#![tactic(auto)]

ghost use Rattle.irql_locks.specs.Owns.{OwningTells};

mod level;
pub mod lock_table;

pub use level::irql_of;
pub use lock_table::LockTable;

/// A law of the tests of owners: a thread owns a lock exactly if it is its owner, and any lock
/// exactly if there is one that it owns.
pub fn owning_tells()
    ensures { OwningTells }
{}
