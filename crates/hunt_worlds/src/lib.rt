//! Whether the worlds of two machines are one: a search that tells worlds apart by a hash asks this
//! before it takes one for another.
#![tactic(auto)]

mod cells;
mod frames;
mod locks;
mod packets;
mod queues;
mod same;
pub mod world;
