//! What the programs answer as lines of JSON: one object a line, with the same data as the lines of
//! `report`. An object begins with the name of its shape and the number of that shape's edition.
#![tactic(auto)]

pub mod event;
pub mod fault;
pub mod json_lines;
pub mod member;
pub mod served;
pub mod to_json;
pub mod told;
pub mod verdict;
