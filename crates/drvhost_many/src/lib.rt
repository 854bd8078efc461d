//! What the program answers for several files, and for those of a folder: what it answers for each,
//! in order, told with its name.
#![tactic(auto)]

pub mod file;
pub mod judging;
pub mod many;
pub mod named;
pub mod painting;
pub mod paths;
