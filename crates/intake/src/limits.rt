//! The limits of a queue. All of them are this project's own.

/// Commands that a queue may have room for, at most; it has room for at least one.
pub const MAX_CAPACITY: usize = 65_536;
/// Submitters of a queue, at most; it has at least one.
pub const MAX_SUBMITTERS: u32 = 32;
/// Takers of a queue, at most; it has at least one.
pub const MAX_TAKERS: u32 = 64;
/// Shares of a queue, which its submitters and takers have among them: whoever has all of them
/// knows the whole queue.
pub const SHARES: u32 = MAX_SUBMITTERS + MAX_TAKERS;
