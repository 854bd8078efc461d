//! What texts of all kinds have in common where one is faulty, told in plain words: bytes and
//! tokens of no form, letters that aren't ASCII, the word that comes nearest, and the sentences
//! that say what is at fault and what may stand there; and forms of lines, by the words that these
//! begin with. Plain code, which takes what memory it needs and writes nothing itself.
#![tactic(auto)]

pub mod advice;
pub mod fit;
pub mod forms;
mod letters;
pub mod lexing;
pub mod misfits;
pub mod nearest;
mod quoting;

pub use letters::add_line;
