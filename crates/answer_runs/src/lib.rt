//! What the program does that runs a driver set, over any devices: the loop over the events of a
//! schedule, for whoever watches it, the trace of a run, as text or as JSON, and what comes of a
//! script of commands that workers serve.
#![tactic(auto)]

pub mod follow;
pub mod host;
mod in_json;
mod in_text;
pub mod keeping;
mod lined;
mod page;
mod ready;
mod reply_lines;
pub mod run_form;
pub mod running;
pub mod trace;
pub mod watching;
