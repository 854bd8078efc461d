//! A run told event by event: which frame acts, where it stands in the text, and in words what its
//! step changed; and the audit behind it. What acts, and the numbers of the events that were
//! refused, are by contract; the words are plain code round it.
#![tactic(auto)]

mod audited;
mod columns;
mod disagreement;
mod front;
mod line;
mod places;
mod standing;
mod teller;

pub use line::Happened;
pub use teller::Teller;
