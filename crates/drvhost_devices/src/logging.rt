//! What stands in a log of driver sets.

use crate::extent::Extent;

/// What a log tells of a refused set.
#[derive(Clone, Copy)]
pub enum Account {
    /// Its first fault, and where that is.
    Verdict,
    /// Of its faults besides the paths there, why the rule is broken, and how to mend it.
    Explanation(Extent),
}

/// Whether a log tells of accepted sets.
#[derive(Clone, Copy)]
pub enum Passes {
    Omitted,
    Listed,
}

/// What stands in a log.
#[derive(Clone, Copy)]
pub struct Logging {
    pub account: Account,
    pub passes: Passes,
}
