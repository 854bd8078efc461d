//! The evidence of a refusal: the paths that lead to the place where a driver set is refused, and
//! the states that arrive along them. Who holds it can follow it by hand.
#![tactic(auto)]

mod arrivals;
mod differing;
mod evidence;
mod subject;
mod trail;

pub use arrivals::{Arrival, arrivals_to};
pub use evidence::{Evidence, evidence_at, evidence_of};
pub use subject::{Fault, Subject};
pub use trail::{Path, Step, path_to};
