//! What is drawn of a run, while it goes: lanes for threads, devices and their lists; a row of
//! words for each event of interest, where they don't repeat those before; each packet's line, in
//! the lane of what holds it by right; and what lasts in a lane. Its memory is bounded by what is
//! drawn.
#![tactic(auto)]

pub mod drawing;
mod fold;
pub mod hold;
mod interest;
pub mod lane;
pub mod lock;
pub mod row;
pub mod row_words;
pub mod seen;
pub mod sign;
