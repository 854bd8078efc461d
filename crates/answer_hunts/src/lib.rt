//! What the program answers to a hunt: a shortest run of a driver set that ends amiss, as a schedule
//! or as a scenario that fails by it at its last line, or the word that there is none.
#![tactic(auto)]

mod as_json;
pub mod find;
pub mod hunt;
