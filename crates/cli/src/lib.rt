//! The program's command line: one table of its commands, its grammar in `clap`, which job its words
//! name, and what is told of words that name none.
#![tactic(auto)]

mod argument;
mod choices;
pub mod job;
mod matches;
mod naming;
mod parsing;
mod program;
mod table;
mod usage;
