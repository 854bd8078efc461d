//! Runs that were looked for as texts of schedules: the first line of each tells how its run ends.
#![tactic(auto)]

mod comments;
pub mod exact;
pub mod grounds;
mod headline;
mod lines;
pub mod reading;
pub mod telling;
mod tidying;
pub mod writing;
