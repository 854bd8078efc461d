//! The search for mends of one routine of a refused driver set, best first by cost.
#![tactic(auto)]

pub mod aim;
mod cut;
mod draft;
mod ledger;
mod pairs;
pub mod search;
mod task;

pub use aim::Aim;
pub use draft::has_line;
pub use search::{Found, find_mends};
