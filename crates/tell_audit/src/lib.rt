//! What a run has left: locks that idle threads own, threads that wait in a ring, packets that no
//! place names or whose cancellation was missed, why events were refused, and how a run ends. Each
//! is read from the machine that ran, and is exactly what a definition over its world says.
#![tactic(auto)]

pub mod amiss;
pub mod ending;
pub mod findings;
pub mod laws;
pub mod left;
pub mod missed;
pub mod naming;
pub mod refusal;
pub mod rehearsal;
pub mod ring;
pub mod sites;
pub mod standing;
