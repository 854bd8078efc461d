//! Mends of a driver set as changes of its text: whole lines, which keep comments, layout and
//! names; and the sentences that tell them. The edits of a mend are followed routine by routine
//! beside the lines where things stand. Each line that they change is written anew as the text lays
//! it out, with instructions in the names of the text, and for each change a sentence tells what is
//! done and what is so then.
#![tactic(auto)]

pub mod label;
mod labels;
mod layout;
mod page;
mod reasons;
mod rendering;
mod rows;
mod said;
pub mod sentences;
mod tables;
mod texts;
mod tracing;
pub mod wording;

pub use label::{Label, add_label};
pub use reasons::reason;
pub use sentences::{guessed, inserted, labels_line, moved, replaced, taken_out};
pub use texts::{Mend, Mended, mend_text};
pub use wording::instruction_text;
