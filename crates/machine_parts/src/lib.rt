//! What threads share in a world whose packets stand in slots, and what a step does to it. Nothing
//! is tested here that an accepted set can never do: who calls knows that what a step looks for is
//! there.
#![tactic(auto)]

pub mod activation;
mod device_lists;
pub mod frame;
pub mod local;
pub mod ran;
pub mod reading;
pub mod shared;
pub mod telling;

pub use frame::Frame;
pub use ran::{Managing, Over, Ran};
pub use shared::Shared;
pub use shared::walking::Walked;
