//! Schedules and scripts as texts. Events are written as lines and read back (`appending`,
//! `event_words`, `listing`, `reading`), and scripts are read (`script_parse`, `script_read`, and
//! `script_quick` for lines in their usual form). A fault of a schedule is told in plain words (`faulty`, `form`,
//! `wording`, `telling`): the line with two round it, the token that is at fault, what may stand in
//! its place, and the word that comes nearest. Plain code, which takes what memory it needs and
//! writes nothing itself.
#![tactic(auto)]

pub mod appending;
pub mod event_words;
pub mod faulty;
mod form;
pub mod listing;
pub mod reading;
pub mod script_parse;
mod script_quick;
pub mod script_read;
mod telling;
mod wording;

pub use telling::fault_words;
