//! Which of the mends that are offered is applied.

/// The greatest number that an offer has.
pub const MAX_OFFERS: u64 = 3;

/// One of several offers.
#[derive(Clone, Copy, Debug, PartialEq, Eq)]
pub enum Wanted {
    /// The first, if it is sure.
    Sure,
    /// That of a number.
    Number(u64),
}
