//! What words about a set are made of: what the things in it are called and the lines in which
//! they stand, as a text or a listing has them; lessons, which tell why a rule is broken, where
//! that is written and how to mend it; and the pages of the rules. The words are plain code, which
//! takes what memory it needs and writes nothing itself.
#![tactic(auto)]

mod code;
mod lesson;
mod listing;
mod locks;
mod names;
mod pages;
mod quotes;

pub use code::{
    Difference, malformed, no_lower_device, no_memory, not_entered, of_level, of_meetings, of_set,
    sent_down, stack_too_small, too_long, unreached,
};
pub use lesson::{About, Lesson};
pub use listing::{ListedPart, listed_devices, listed_routine};
pub use locks::{add_lock, spin_number};
pub use names::{Names, SetNames};
pub use pages::{RULES, lock_order_words, rule_words};
pub use quotes::{Origin, Source, add_lines, add_title};
