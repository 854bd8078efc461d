//! Whether a token is what stands at a place.

use text::number::Numeral;

/// Whether a token is what stands at a place.
#[derive(Clone, Copy)]
pub enum Fit {
    /// It is.
    Fits,
    /// It would be, if its number were in range.
    OutOfRange,
    /// It is something else.
    Other,
}

impl Fit {
    /// That it is, if so.
    pub fn if_so(fits: bool) -> Fit {
        if fits { Fit::Fits } else { Fit::Other }
    }

    /// Whether a token that was read as a number is within bounds.
    pub fn within(numeral: Numeral, least: u64, most: u64) -> Fit {
        match numeral {
            Numeral::Number(number) if least <= number && number <= most => Fit::Fits,
            Numeral::Number(_) | Numeral::TooLarge => Fit::OutOfRange,
            Numeral::Other => Fit::Other,
        }
    }
}
