//! Whether an answer is painted.

ghost use Rattle.std.specs.Prelude.{◌≡◌};
ghost use Rattle.drvhost_devices.specs.Painting.{is_painted};

use crate::surroundings::Surroundings;

/// Whether an answer is painted.
#[derive(Clone, Copy, Debug, PartialEq, Eq)]
pub enum Coloring {
    /// Where it goes to a terminal, and the environment asks for no other.
    Auto,
    /// It is, wherever it goes.
    Always,
    /// It isn't.
    Never,
}

impl Coloring {
    /// Whether an answer is painted, by what a run finds around it.
    pub fn is_painted(self, surroundings: Surroundings) -> bool
        ensures { result ≡ is_painted self surroundings }
    {
        match self {
            Coloring::Auto => surroundings.is_output_terminal && !surroundings.is_colorless,
            Coloring::Always => true,
            Coloring::Never => false,
        }
    }
}
