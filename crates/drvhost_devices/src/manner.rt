//! How a run is told.

ghost use Rattle.std.specs.Prelude.{◌≡◌};
ghost use Rattle.drvhost_devices.specs.Strict.{fails_strictly};

/// Of which events of a run a line is told.
#[derive(Clone, Copy, Debug, PartialEq, Eq)]
pub enum Detail {
    /// Of each.
    Every,
    /// Of those about packets, locks, lists and levels: but for those that find nothing to do, and
    /// for steps at instructions that only compute.
    Usual,
    /// Of those that do more than make a step or find nothing to do.
    Quiet,
}

/// Whether a run in which an event was refused is answered as one that went well.
#[derive(Clone, Copy, Debug, PartialEq, Eq)]
pub enum Strictness {
    /// It is.
    Lenient,
    /// It is answered as one that stopped.
    Strict,
}

impl Strictness {
    /// Whether a run is taken for one that stopped, where an event of it was refused or none was.
    pub fn fails(self, refused: bool) -> bool
        ensures { result ≡ fails_strictly self refused }
    {
        match self {
            Strictness::Lenient => false,
            Strictness::Strict => refused,
        }
    }
}

/// How a run is told.
#[derive(Clone, Copy, Debug, PartialEq, Eq)]
pub struct Manner {
    pub detail: Detail,
    pub strictness: Strictness,
}
