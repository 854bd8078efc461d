//! Where lines stand.

/// Where a line stands.
#[derive(Clone, Copy)]
pub(crate) enum Place {
    Outside,
    InDriver,
    InRoutine,
}

impl Place {
    /// It in words.
    pub(crate) fn words(self) -> &'static str {
        match self {
            Place::Outside => "outside of drivers",
            Place::InDriver => "in a driver, outside of its routines",
            Place::InRoutine => "in a routine",
        }
    }

    /// What lines there begin with, in words.
    pub(crate) fn beginnings(self) -> &'static str {
        match self {
            Place::Outside => "`driver` or `device`",
            Place::InDriver => "`dispatch`, `startio`, `dpc`, `queue`, `routine` or `endd`",
            Place::InRoutine => "an instruction, or `endr`",
        }
    }
}
