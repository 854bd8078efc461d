//! What the program reads from and writes to, and what each command has in common: devices, whole
//! inputs and outputs over them, the driver set that an input names, and what keeps a job from its
//! answer, with the line that tells it and the exit status; what the options of commands choose
//! among, as values alone; and answers in colour (`form`, `paint`), whose parts stand between
//! sequences that select graphic renditions (SGR, ECMA-48) and of which no word changes.
#![tactic(auto)]

pub mod coloring;
pub mod device;
pub mod extent;
pub mod fault;
pub mod figure;
mod form;
pub mod jobs;
pub mod listing;
pub mod logging;
pub mod manner;
pub mod paint;
pub mod reading;
pub mod surroundings;
pub mod told;
pub mod transfer;
pub mod tries;
pub mod unopened;
pub mod verbosity;
pub mod verification;
pub mod wanted;
