//! As what a run is drawn.

/// As what a run is drawn.
#[derive(Clone, Copy, Debug, PartialEq, Eq)]
pub enum Figure {
    /// As one picture, in SVG.
    Picture,
    /// As trace events in JSON, which Perfetto shows.
    Tracks,
}
