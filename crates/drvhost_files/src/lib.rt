//! Files by their names: those of a system, its standard input among them, those that are opened
//! once they are read or written, and those that a path on the command line stands for: itself, or
//! the driver sets or scenarios in the folder that it is, and below it.
#![tactic(auto)]

pub mod files;
pub mod find;
pub mod folders;
pub mod reading;
pub mod sought;
pub mod standard;
