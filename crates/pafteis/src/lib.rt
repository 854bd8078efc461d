//! The library for C and whoever calls C: thin functions over what stands. include/pafteis.h tells
//! of each.
#![tactic(auto)]

pub mod again;
pub mod keeping;
pub mod locks;
pub mod names;
pub mod reading;
pub mod schedules;
pub mod seeking;
pub mod shape;
pub mod shown;
pub mod texts;
pub mod version;
pub mod worlds;
