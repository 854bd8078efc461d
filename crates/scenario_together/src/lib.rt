//! Threads of a scenario that run in every interleaving, and the scenario behind each of their
//! ends.
#![tactic(auto)]

mod interleaving;
pub mod play;
pub mod together;
