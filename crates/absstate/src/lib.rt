//! Abstract states: the one in which a routine is entered, what an instruction demands of the state
//! before it, the states that it hands on, and whether two states are the same.
#![tactic(auto)]

mod cancel;
mod fault;
mod forwarding;
mod local_rule;
mod queues;
mod returns;
mod state;
mod tracked;

pub use local_rule::{advance, broken_rule, state_at_label, transfer};
pub use model::abs::{Abs, Duty, Kind, Outs, Rule, Settled, Stage};
pub use state::{are_same, entry_state};
pub use tracked::Tracked;
