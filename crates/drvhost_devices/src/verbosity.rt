//! How much is told of a test that fails.

/// How much is told of a test that fails.
#[derive(Clone, Copy, Debug, PartialEq, Eq)]
pub enum Verbosity {
    /// Where it fails, and what was expected there.
    Brief,
    /// The run up to there besides, in words.
    Verbose,
}
