//! A refusal told in plain words: where it stands in the text, a path that leads there, what is
//! known of the registers and locks where it arrives, and which rule the instruction breaks. The
//! evidence is proved where it is found (`verifier_evidence`, `asm_places`); the words round it are
//! plain code, which takes what memory it needs and writes nothing itself.
#![tactic(auto)]

mod devices;
mod history;
mod path;
mod place;
mod refused;
mod state;
mod telling;

pub use refused::{RefusedRoutine, set_refused};
pub use telling::{Told, explanation, explanations};
