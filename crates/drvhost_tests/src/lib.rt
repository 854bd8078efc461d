//! What the program answers to tests of a driver set: the scenarios of files by name, played by
//! several jobs at once.
#![tactic(auto)]

mod case;
mod junit;
mod reporting;
mod running;
mod scenario;
mod set;
mod tap;
mod telling;
pub mod test;
mod written;
