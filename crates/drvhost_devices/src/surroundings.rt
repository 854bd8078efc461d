//! What a run of the program finds around it.

/// What a run of the program finds around it: what a person sees at a terminal, and how many
/// processors share the work. No verdict and no run depends on it.
#[derive(Clone, Copy, Debug, PartialEq, Eq)]
pub struct Surroundings {
    /// Whether the standard output is a terminal.
    pub is_output_terminal: bool,
    /// Whether the standard error output is a terminal.
    pub is_error_terminal: bool,
    /// Whether the environment asks for no colour, by `NO_COLOR`.
    pub is_colorless: bool,
    /// How many processors there are, or one where that isn't known.
    pub processors: usize,
}

/// Those of a run whose streams are files or pipes, on one processor.
pub const PLAIN: Surroundings = Surroundings {
    is_output_terminal: false,
    is_error_terminal: false,
    is_colorless: false,
    processors: 1,
};
