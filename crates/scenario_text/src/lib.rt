//! Scenarios: what a driver author wants a driver set to do, and what is to come of it, read from
//! their texts.
#![tactic(auto)]

pub mod parse;
mod quick;
pub mod reading;
pub mod repeating;
mod together;
