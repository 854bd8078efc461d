//! The structs and numbers of the library's header: what crosses to C of a verdict, an order of
//! locks, an event, a reply, and what a world tells; and what things are called, by number: those of
//! a driver text, and rules, status values and bug checks.
#![tactic(auto)]

pub mod constants;
pub mod event;
pub mod locks;
pub mod named;
pub mod reply;
pub mod rule;
pub mod shape;
pub mod shared;
pub mod verdict;
pub mod view;
