//! Numbers that look random, and how many steps may still be made: both the same at each search.

/// The number that all searches begin from.
const SEED: u64 = 77;

/// What a search at random goes by.
#[derive(Clone, Copy)]
pub(crate) struct Luck {
    last: u64,
    steps: usize,
}

impl Luck {
    /// As each search begins, with so many steps to make.
    pub(crate) fn with_steps(steps: usize) -> Luck {
        Luck { last: SEED, steps }
    }

    /// With so many steps to make in place of those that are left.
    pub(crate) fn renew(&mut self, steps: usize) {
        self.steps = steps;
    }

    /// So many steps are made.
    pub(crate) fn spend(&mut self, steps: usize) {
        self.steps = self.steps.saturating_sub(steps);
    }

    /// Whether all steps are made.
    pub(crate) fn is_out(&self) -> bool {
        self.steps == 0
    }

    /// The next number below a count, by xorshift: 0 where that is 0.
    pub(crate) fn below(&mut self, count: usize) -> usize {
        let mut next = self.last;
        next ^= next << 13;
        next ^= next >> 7;
        next ^= next << 17;
        self.last = next;
        (next >> 11) as usize % count.max(1)
    }
}
