//! What a run says of its pending returns while it goes: which frame acts in an event and where it
//! stands, what the event does to uses of stack locations, and which of them were returned from
//! otherwise than they were marked. Each is exactly what a definition over the run says.
#![tactic(auto)]

pub mod acting;
pub mod acts;
pub mod computing;
pub mod laws;
pub mod ledger;
pub mod plain;
pub mod standing;
pub mod uses;
