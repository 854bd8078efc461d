//! The core that threads share under one lock: the world of an accepted set beside the history of
//! what was done to it, the seats from which threads step it, the tickets of commands, and the
//! index of the history by the names of commands and by packets.
#![tactic(auto)]

pub mod host_core;
pub mod index;
mod log;
pub mod numbered;
pub mod seat;
pub mod stored;
pub mod ticket;

pub use host_core::{Core, LogFull, Stepped};
pub use index::Index;
pub use numbered::Numbered;
pub use seat::Seat;
pub use stored::Stored;
pub use ticket::{Desk, Queued, Taken, Ticket};
