//! How often mends are tried.

/// How often a mend is tried of each faulty routine where nothing is said of it.
pub const USUAL_TRIES: u64 = 20_000;

/// How often at most.
pub const MAX_TRIES: u64 = 1_000_000;
