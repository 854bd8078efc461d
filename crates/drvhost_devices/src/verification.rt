//! Whether a set has to be accepted before it runs.

/// Whether a set has to be accepted before it runs.
#[derive(Clone, Copy, Debug, PartialEq, Eq)]
pub enum Verification {
    /// A refused set isn't run.
    Required,
    /// Any set is run.
    Skipped,
}
