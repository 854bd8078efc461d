//! Who holds each live packet of a run by right, where the set that runs is accepted: of all the
//! places that name a packet, exactly one. Of a refused set no right is defined, so there is none
//! to tell.
#![tactic(auto)]

mod arriving;
mod rights;
mod standing;

pub use rights::{Holders, Rights};
