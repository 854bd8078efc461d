//! A run shown to people, or to programs: told in words or as lines of JSON, or drawn as a picture.
//! Each is a job on a run, and watches the loop that runs a driver set by a schedule. The whole
//! text stands in memory.
#![tactic(auto)]

mod alone;
mod begun;
pub mod draw;
mod drawing;
mod events;
pub mod in_json;
mod levels;
mod page;
mod seeing;
pub mod tell;
mod telling;
