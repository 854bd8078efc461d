//! What the program answers for the words of its command line: the files that they name, each
//! opened when its turn comes, and the job done with them.
#![tactic(auto)]

mod coloring;
mod keeping;
pub mod program;
mod returned;
mod running;
mod serving;
mod task;
mod telling;
mod unread;
