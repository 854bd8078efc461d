//! The machine of accepted driver sets, for a simulator to embed: it runs event by event, and shows
//! no bug check and no wrong operand. `world` is what callers hold; the other modules carry events
//! out on packets in slots and on registers of plain words, without a test of anything that an
//! accepted set can never do.
#![tactic(auto)]

mod cells;
mod forwarding;
mod locks;
mod manager;
mod packets;
mod queues;
mod reading;
mod routine;
mod running;
pub mod slots;
mod starting;
mod steps;
mod thread;
pub mod world;

pub use slots::Slots;
pub use world::World;
