//! The I/O manager: the table of live packets, and the walk by which it completes one.
#![tactic(auto)]

mod actions;
mod buckets;
mod lending;
mod packet_list;
pub mod packet_table;
pub mod walk;

pub use packet_table::{Key, PacketTable};
pub use walk::WalkStep;
