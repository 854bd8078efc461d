//! What the program answers to `stats`: of an accepted set its routines with their certificates,
//! the orders in which its drivers take their locks, and its sizes, as text and in JSON.
#![tactic(auto)]

pub mod as_json;
mod locks;
mod order;
mod sizes;
pub mod stats;
