//! What is hunted in.

use driver_set::DriverSet;
use hunt_facts::bounds::Bounds;

/// What is hunted in, how far, and with what it is told.
#[derive(Clone, Copy)]
pub struct Grounds<'a> {
    pub set: &'a DriverSet,
    pub bounds: Bounds,
    /// The text that the set was read from: what is told has its names and lines.
    pub source: &'a [u8],
}
