//! Mends that are offered for a refused driver set, each of which the verifier judged: all that so
//! many tries find, or those that are soon found; and as advice the first, where it is sure, in
//! words and as changes of the text that names the set.
#![tactic(auto)]

pub mod advice;
pub mod offers;
mod spread;
mod sure;

pub use offers::{Ending, Mending, Offer, Offers, Standing, find_offers};
pub use sure::{Advice, advise};
