//! A fault of a driver text told in plain words: the line with two round it, the token that is at
//! fault, what may stand in its place, and the word or name that comes nearest. Plain code, which
//! takes what memory it needs and writes nothing itself.
#![tactic(auto)]

mod faulty;
mod form;
mod line_form;
mod names;
mod naming;
mod operand;
mod scope;
mod telling;
mod token;
mod wording;

pub use telling::fault_words;
