//! Driver sets spelled by bytes, their images, and read back.
#![tactic(auto)]

pub mod edition;
pub mod fault;
pub mod laws;
mod reading;
mod word;
mod writing;

pub use driver_set::{
    Cell, Device, Driver, DriverSet, Field, Guard, Instr, Items, Queue, QueueName, Register,
    Return, Routine, Sort, SpinLock, Turns,
};
pub use edition::Edition;
pub use fault::ImageFault;
pub use reading::decode;
pub use writing::encode;
