//! Of how much of a refused set words are written.

/// Of which faults of a refused set words are written.
#[derive(Clone, Copy, Debug, PartialEq, Eq)]
pub enum Extent {
    /// Of its first fault, for which it is refused.
    First,
    /// Of the first fault of each routine that has one.
    Each,
}
