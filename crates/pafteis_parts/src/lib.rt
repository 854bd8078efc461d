//! What the program answers, over bytes in memory: the verdict on a driver set, explained or not,
//! its trace, its listing and its image, and a rule in words; and how an answer is put into a
//! buffer of the caller's.
#![tactic(auto)]

pub mod answers;
pub mod delivery;
