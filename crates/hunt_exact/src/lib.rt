//! Exact hunts: a search of the runs within bounds that takes no world for another one. Where it
//! has seen all, no run within the bounds ends amiss.
#![tactic(auto)]

pub mod allowed;
mod amiss;
mod index;
mod machines;
pub mod moves;
mod scope;
pub mod search;
mod seen;
mod visiting;
