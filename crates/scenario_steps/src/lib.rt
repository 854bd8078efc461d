//! The steps of a scenario: what happens in them, and what is expected.
#![tactic(auto)]

pub mod judging;
pub mod scenario;
pub mod steps;
