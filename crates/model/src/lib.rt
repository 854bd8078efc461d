//! What the project speaks of: driver sets, worlds, events, replies and abstract states as types,
//! and in `specs/` the definitions that every contract cites.
#![tactic(auto)]

pub mod abs;
pub mod cell;
pub mod event;
pub mod forms;
pub mod history;
pub mod instr;
pub mod items;
pub mod limits;
pub mod memory;
pub mod register;
pub mod set;
mod shown;
pub mod spin_lock;
pub mod status;
pub mod turns;
pub mod view;
mod words;
pub mod world;
