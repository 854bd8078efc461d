//! What the program tells in lines of JSON of commands that were served: what came of each.
#![tactic(auto)]

pub mod host;
