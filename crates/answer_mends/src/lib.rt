//! What the program answers to `mend`: changes of the text of a refused set, as diffs. Each was
//! applied, read back and judged before it is written.
#![tactic(auto)]

pub mod apply;
pub mod as_json;
mod choosing;
pub mod fixing;
mod judged_offers;
pub mod judging;
pub mod mend;
mod proposing;
mod reply;
