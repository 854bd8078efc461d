//! A run that is told as lines of JSON: its events as they happen, each with its circumstances, and
//! what its audit found. Circumstances are words; all else is by contract.
#![tactic(auto)]

pub mod audit;
pub mod telling;
