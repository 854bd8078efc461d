//! Workers over one core under a lock: each steps a thread of its own, and performs the commands
//! that it takes from a queue.
#![tactic(auto)]

pub mod ending;
mod locked;
mod seating;
pub mod served;
pub mod serving;
mod standing;
mod starting;
mod turns;
mod waiting;
pub mod working;

pub use ending::Ends;
pub use served::Served;
pub use serving::serve;
pub use working::{Gate, Open};
