//! What is told of an accepted set: its routines, and the orders or cycles in which its drivers
//! take their locks; the orders alone; or the cycles alone as warnings. The orders are proved where
//! they are found (`verifier_orders`); the words round them are plain code, which takes what memory
//! it needs and writes nothing itself.
#![tactic(auto)]

mod lines;
mod orders;
mod roll;
mod warning;

pub use orders::{acceptance, lock_orders};
pub use warning::warnings;
