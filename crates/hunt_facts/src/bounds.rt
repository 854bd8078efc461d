//! How far a search goes, and what it looks for.

/// What a search looks for.
#[derive(Clone, Copy)]
pub enum Goal {
    /// A run that ends amiss.
    Amiss,
    /// Or else one from whose end no run within the bounds comes to rest.
    AmissOrStuck,
}

/// How far a search goes.
#[derive(Clone, Copy)]
pub struct Bounds {
    /// Threads, 1 to 64.
    pub threads: u8,
    /// Packets that live at once.
    pub packets: usize,
    /// Worlds that are kept.
    pub worlds: usize,
    /// Events of a run, where these are bounded.
    pub events: Option<u64>,
    /// One more argument that every request is tried with.
    pub argument: Option<u64>,
    /// What it looks for.
    pub goal: Goal,
}
