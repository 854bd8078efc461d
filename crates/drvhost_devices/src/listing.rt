//! As what a run that was found is written.

/// As what a run that was found is written.
#[derive(Clone, Copy, Debug, PartialEq, Eq)]
pub enum Listing {
    /// As a schedule.
    Schedule,
    /// As a scenario, by the names of the set.
    Scenario,
}
