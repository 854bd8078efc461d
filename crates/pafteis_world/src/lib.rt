//! Worlds for a program in another language: from the bytes of a driver text or an image to a
//! verdict, a world or the order of a driver's locks; a world behind a handle, and an answer's
//! bytes.
#![tactic(auto)]

pub mod admitting;
pub mod again;
pub mod batch;
pub mod driving;
pub mod handle;
pub mod keeping;
pub mod kept;
pub mod locks;
mod loose;
pub mod reading;
pub mod shape;
