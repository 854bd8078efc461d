//! A bounded queue of commands between those that submit them and those that take them, in any
//! threads.
#![tactic(auto)]

pub mod closing;
pub mod left;
pub mod limits;
mod rule;
pub mod shared;
pub mod submitter;
pub mod taker;

pub use closing::{Closed, Drained};
pub use left::Left;
pub use shared::Intake;
pub use submitter::Submitter;
pub use taker::{Found, Taker};
