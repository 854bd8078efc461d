//! Answers as values: a job is a function from what a file held to an answer, judging is said once
//! for all jobs on a set, and a form says what was found, as text or as JSON. A run is a job on a
//! set and another file. `deliver` and `deliver_run` alone read files and write an answer.
#![tactic(auto)]

pub mod as_json;
pub mod as_text;
pub mod certified;
pub mod check;
pub mod content;
pub mod deliver;
pub mod form;
pub mod job;
pub mod judged;
pub mod list;
pub mod names;
pub mod origin;
pub mod reading;
pub mod run;
pub mod set;
