//! The queues of a device, as lists of packet numbers, with what it has for StartIo; and lists that
//! are linked through their slots.
#![tactic(auto)]

pub mod device_queue;
pub mod guarded;
pub mod links;
mod numbers;
mod rings;
mod row;

pub use device_queue::DeviceQueue;
pub use guarded::Guarded;
pub use links::Links;
