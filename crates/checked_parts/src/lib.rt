//! What the threads of the reference machine share, the frames that they stack, and what an
//! instruction does to both.
#![tactic(auto)]

pub mod activation;
pub mod frame;
pub mod ran;
pub mod shared;
mod value;

pub use frame::{Frame, Managing, is_last};
pub use ran::{Over, Ran, Runner, cancelling, packet_bug, wrong_at};
pub use shared::Shared;
pub use value::{number_in, status_in};
