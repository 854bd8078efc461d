//! The verifier: a driver set is accepted if in each of its routines every position is reached in
//! exactly one abstract state, over all paths, and no instruction breaks a rule in it.
#![tactic(auto)]

mod certificate;
pub mod laws;
mod loops;
mod malformed;
mod named;
mod pass;
mod routine;
mod seen;
mod survey;
mod table;
pub mod verdict;

pub use model::abs::{Refusal, Rule};
pub use routine::{check_routine, entry};
pub use survey::{certificate_through, innermost_loop};
pub use verdict::{Accepted, verify};
