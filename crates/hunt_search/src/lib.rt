//! The search for a run of a driver set that ends amiss: a shortest one, breadth first over its
//! worlds, where these are few; else one that is found at random, and made short.
#![tactic(auto)]

mod editing;
mod expanding;
mod graph;
mod local;
mod luck;
mod moves;
mod others;
mod plan;
mod pool;
mod random;
pub mod search;
mod shortening;
mod turning;
pub mod verdict;
mod walking;
mod worlds;
