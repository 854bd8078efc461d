//! The exact lines that the programs write. A line is added to lines that gather before they are
//! written, and needs no memory. It ends with one LF, and is ASCII. All numbers are decimal, but
//! for status values and bug checks, which are `0x` and eight or two hexadecimal digits in upper
//! case.
#![tactic(auto)]

pub mod event_number;
pub mod fault;
pub mod host;
pub mod lines;
mod ready_line;
pub mod reply;
pub mod rule;
pub mod verdict;
pub mod word;
mod word_lines;
