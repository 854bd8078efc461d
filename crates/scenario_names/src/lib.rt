//! What the lines of a scenario name: devices, instructions and queues of a driver text, packets
//! that lines issue, and numbers.
#![tactic(auto)]

pub mod issued;
pub mod names;
pub mod operands;
