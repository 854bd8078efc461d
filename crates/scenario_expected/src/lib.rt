//! What a scenario expects of its run, read from the line that says so.
#![tactic(auto)]

pub mod expectation;
pub mod expecting;
mod places;
