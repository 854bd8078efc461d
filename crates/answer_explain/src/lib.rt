//! What the program answers of the driver set of one file: the verdict on it explained, in words and
//! in JSON, with what shows each refusal, placed in the bytes of the file; its image; a rule in
//! words, and which program this is.
#![tactic(auto)]

pub mod advising;
pub mod explaining;
mod faults;
mod image_words;
pub mod in_json;
mod joining;
pub mod laws;
mod objects;
mod quoting;
pub mod region;
pub mod rewriting;
pub mod rule;
pub mod showing;
pub mod shown;
pub mod version;
