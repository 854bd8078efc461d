//! Driver sets, as every layer above holds them.
#![tactic(auto)]

pub mod copying;
mod devices;
mod edition;
pub mod set;
mod sound;

pub use devices::{device_of, driver_of, serving_for};
pub use model::instr::{Cell, Field, Instr, Register, Return, SpinLock, Turns};
pub use model::items::Items;
pub use model::set::{Device, Driver, Guard, Queue, QueueName, Routine, Sort};
pub use set::DriverSet;
