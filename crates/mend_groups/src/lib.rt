//! The edits that belong together and may mend a routine with a fault, and edits of lines that are
//! no instructions; and all candidates for a fault.
#![tactic(auto)]

pub mod all;
mod blocks;
mod lines;
mod templates;
mod ways;

pub use all::add_all;
