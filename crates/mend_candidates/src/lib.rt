//! The edits of one instruction that may mend a routine with a fault, in a fixed order, and what
//! each costs.
#![tactic(auto)]

mod deletes;
pub mod gathered;
pub mod growing;
mod guesses;
mod inserts;
mod moves;
mod prior;
mod replaces;
pub mod scene;

pub use gathered::Gathered;
pub use growing::Growing;
pub use guesses::Guess;
pub use scene::Scene;
