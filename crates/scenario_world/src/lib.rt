//! What may be expected of a world, decided by the machine that shows it: where packets stand,
//! which frames have them, what cells have, and who owns a lock.
#![tactic(auto)]

pub mod cells;
pub mod goers;
pub mod going;
pub mod holders;
pub mod lists;
pub mod locks;
pub mod marks;
pub mod releases;
pub mod states;
pub mod until;
