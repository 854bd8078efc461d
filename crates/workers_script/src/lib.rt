//! What comes of the commands of a script, which workers serve over one locked core, and of their
//! threads.
#![tactic(auto)]

mod back;
mod collecting;
pub mod hosted;
mod queueing;
mod serving;
mod standing;
mod submitting;

pub use hosted::{Hosted, serve_script};
