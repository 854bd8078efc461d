//! A run as trace events in JSON, which Perfetto and chrome://tracing show: a track for each thread
//! with a span for each frame, below it a track for each lock that it owned, counters of lists and
//! of live packets, each packet as a flow from span to span, and what is done to packets and locks
//! as instants.
//!
//! Time is counted in events: an event takes a microsecond. What it begins or ends, begins or ends
//! behind it. There is no limit to the events, and the text grows with them.
#![tactic(auto)]

mod bar;
mod lists;
mod mark;
mod spans;
mod tracks;

pub use draw_lanes::seen::Seen;
pub use tracks::Tracks;
