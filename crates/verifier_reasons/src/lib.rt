//! The rules in words, by what led to it that one is broken: why, where that is written, and how to
//! mend it. The words are plain code, which takes what memory it needs and writes nothing itself.
#![tactic(auto)]

mod acts;
mod case;
mod kinds;
mod locks;
mod packets;
mod returns;
mod rules;
mod tokens;

pub use acts::{Act, Locking, Plain, Queueing, Sending, Waiting, act_of, list_of};
pub use case::{Case, Fact, is_held, is_packet};
pub use kinds::blank_register;
pub use locks::lock_meant;
pub use rules::lesson_of;
