//! What comes back of serving a queue.

ghost use Rattle.std.specs.Prelude.{◌≡◌, ◌≤◌, [], length, replicate};
ghost use Rattle.hostcore.specs.Core.{CoreState};
ghost use Rattle.intake.specs.declared.limits.TheConstants.{MAX_TAKERS};

use crate::ending::Ends;
use arrayvec::ArrayVec;
use hostcore::{Core, Taken};
use intake::Taker;

/// What comes back of `serve`.
pub struct Served {
    pub core: Core,
    /// The takers that were handed in.
    pub takers: Vec<Taker>,
    /// How many entries the worker of each taker made.
    pub counts: ArrayVec<u64, 64>,
    /// Commands that were taken and met the full history.
    pub held: Vec<Taken>,
    /// How many workers were started: the first ones, up to one that the system refused. The others
    /// took nothing.
    pub started: usize,
    /// The ends of those that were started.
    pub ends: Ends,
    /// Whether a worker met the full history.
    pub full: bool,
}

/// So many counts of nothing.
pub fn no_counts(count: usize) -> ArrayVec<u64, 64>
    requires { count ≤ MAX_TAKERS }
    ensures { result.items ≡ replicate count 0 }
{
    let mut counts = ArrayVec::new();
    for _taker in 0..count {
        counts.push(0);
    }
    counts
}
