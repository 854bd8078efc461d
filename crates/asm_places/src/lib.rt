//! Where the things that a driver text names stand in it. A set has none of that: it is found by
//! reading the text once more, line after line. Most lines are passed by their first word.
#![tactic(auto)]

pub mod laws;
mod outlining;
mod source;

pub use outlining::outline;
pub use source::{RoutineSource, instruction_lines, routine_source};
