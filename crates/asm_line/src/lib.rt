//! One line of a driver text by its form alone: its words, its operands and the instruction that
//! they make. Whether it may stand where it does, and what its names are, is not asked here.
//!
//! `quick`, `operands` and `reading` read a line by its usual form first, a word and its operands
//! each after one space; the `listed_` modules and `entry` write a driver set as a text, in which
//! each thing has the name of its kind and number: drivers `d0`, routines `f0`, queues `q0`, devices
//! `v0`, and an instruction that is jumped to the label `a` and its position.
#![tactic(auto)]

mod cursor;
mod entry;
pub mod form;
mod instruction;
pub mod line;
mod listed_driver;
mod listed_instruction;
mod listed_lines;
mod listed_routine;
mod operands;
mod quick;
mod reading;
mod words;

pub use entry::Entry;
pub use form::{comment_line, read_exactly};
pub use line::{Body, Line, LineFault, UsedNames};
pub use listed_lines::listing;
pub use quick::plain_line;
pub use reading::{read_line, read_other_line};
pub use words::{field_text, status_text};
