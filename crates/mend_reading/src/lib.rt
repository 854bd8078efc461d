//! Routines read as the verifier reads them, instructions taken apart, and candidates for edits.
#![tactic(auto)]

pub mod acts;
pub mod candidate;
pub mod form;
pub mod loops;
pub mod operands;
pub mod reading;
mod table;
pub mod usual;

pub use candidate::{Candidate, Candidates, Manner, Placed};
pub use reading::{Fault, Reading, Subject};
