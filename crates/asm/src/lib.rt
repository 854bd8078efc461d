//! The assembler: reads a driver text and makes the driver set that it names, or names its fault;
//! and writes a set back as a text that names it.
//!
//! The lines are read once, in order. The first fault of any kind but an unknown name ends the
//! reading: the least line, on it the least kind. The least line that uses an unknown name is noted
//! on the way, as drivers and routines are closed, and told only where there is no other fault.
//! `names` and `roles` keep what the names of a text number, and what routines are named for.
#![tactic(auto)]

mod check;
mod code;
mod disassembly;
mod draft;
mod fault;
pub mod laws;
mod link;
pub mod names;
mod note;
mod queues;
mod reading;
pub mod roles;
mod routines;

pub use disassembly::disassemble;
pub use fault::{AsmFault, AsmKind};
pub use reading::assemble;
