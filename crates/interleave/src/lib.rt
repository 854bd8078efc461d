//! Schedules: which thread does what, event by event, read from their texts.
#![tactic(auto)]

pub mod events;
mod kept;
mod left;
pub mod opening;
pub mod parse;
pub mod quick;
pub mod read;
pub mod run;
pub mod schedule;
