//! I/O request packets: their stack locations, and the calls by which drivers and the I/O manager
//! change them.
#![tactic(auto)]

mod control;
mod location;
pub mod packet;

pub use packet::Packet;
