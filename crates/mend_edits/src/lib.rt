//! A text edited line by line: the steps of an edit, what they make of the text, and the unified
//! diff that shows them; what a unified diff makes of a text; and edits of whole lines by their
//! numbers, as reports have them.
#![tactic(auto)]

mod change;
mod following;
mod head;
mod hunks;
mod line;
mod lines;
mod patching;
mod step;

pub use change::{Change, steps_of};
pub use following::made_by;
pub use hunks::diff;
pub use lines::{LineEdit, edited, edits_of};
pub use patching::patch;
pub use step::{Step, all_kept};
