//! How far a command has come, told at a terminal.
#![tactic(auto)]

pub mod line;
pub mod meter;
pub mod progress;
