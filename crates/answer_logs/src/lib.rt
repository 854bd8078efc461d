//! What is found in the driver sets of several files, as one log of SARIF, with the place in its
//! text of each thing that is wrong.
#![tactic(auto)]

mod copying;
mod explaining;
mod finding;
mod found;
pub mod logging;
mod results;
mod rules;
