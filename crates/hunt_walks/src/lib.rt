//! Every walk from one place, each place that one leads to once: a search, breadth first, that
//! takes two places for one only where moves behind them go on alike.
#![tactic(auto)]

pub mod ends;
mod index;
pub mod search;
mod seen;
pub mod walker;
