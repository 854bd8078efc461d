//! What of a driver set says which events and which numbers may matter to a hunt, how far one goes,
//! and the key of a world, which worlds share that differ in nothing that may matter.
#![tactic(auto)]

pub mod arguments;
pub mod bounds;
mod cells;
pub mod facts;
pub mod keys;
pub mod reach;
pub mod reaching;
pub mod registers;
pub mod requests;
mod sorting;
pub mod uses;
pub mod writer;
