//! Scenarios as they run on the reference machine: what each step makes happen, and what holds.
#![tactic(auto)]

pub mod holding;
mod past;
pub mod play;
pub mod playing;
mod runner;
mod told;
mod tops;
mod turns;
mod walking;
