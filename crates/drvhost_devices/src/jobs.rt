//! How many jobs share the files of a command.

/// How many at most.
pub const MAX_JOBS: u64 = 64;
