//! What the program answers to a scenario, over any devices: whether all that it expects holds, or
//! the plain schedule of what it makes happen.
#![tactic(auto)]

mod failure;
pub mod finding;
mod listing;
mod outcome;
pub mod schedule;
pub mod telling;
mod writing;
