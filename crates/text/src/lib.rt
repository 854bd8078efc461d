//! Bytes of a text to lines, a line to tokens, and what a token is. Driver texts and schedules are
//! read by the same rules. Places in a text are found by the numbers of lines, and its lines
//! quoted.
//!
//! Lines end with LF. `;` begins a comment. Tokens are parted by tabs, spaces and CR. A token is a
//! name, a word in capitals, a number, or a name with a colon. Both name major functions.
#![tactic(auto)]

pub mod class;
pub mod cut;
pub mod head;
pub mod major;
pub mod number;
pub mod piece;
mod placed;
mod quote;
mod spot;
mod spots;
pub mod token;

pub use placed::PlacedLines;
pub use quote::{add_bytes, add_excerpt, add_line};
pub use spot::{Spot, line_at};
pub use spots::Spots;
