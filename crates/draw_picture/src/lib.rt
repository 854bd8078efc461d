//! A run drawn as one SVG picture: a lane for each thread, and for each device and its lists; a
//! line for each packet through the lanes; and a row of words for each event of interest.
//!
//! Time goes downwards. Each event that is drawn has a row: its number, what happens in the lanes,
//! where the frame stands that acts, and words for what it changed. No text lies over another: the
//! words have columns of their own, and the number of a packet stands beside its line and below the
//! connector by which it came there.
#![tactic(auto)]

mod escape;
mod layout;
mod legend;
mod lines;
mod picture;
mod style;
mod svg;

pub use draw_lanes::drawing::Drawing;
pub use draw_lanes::seen::Seen;
pub use picture::add_picture;
