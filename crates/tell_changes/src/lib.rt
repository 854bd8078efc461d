//! What an event changed, in words: by the moment before it and the machine after it, with the
//! names and the lines of the text; and threads that wait in a ring. What acts is by contract; the
//! words are plain code round it.
#![tactic(auto)]

mod change;
mod moment;
mod refusal;
mod ringed;

pub use change::add_change;
pub use moment::Moment;
pub use refusal::refusal_words;
pub use ringed::{add_ringed, ring_words};
