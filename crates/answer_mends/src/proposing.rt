//! What is proposed: words on changes of a text, and a diff.

use crate::choosing::Choice;
use driver_set::DriverSet;
use mend_edits::{diff, steps_of};
use mend_offers::offers::{Mending, Offer, Offers, Standing};
use mend_texts::{Mend, Mended, mend_text};
use std::alloc::{AllocError, Global};
use words::Words;

/// A diff of a text, and words on it: a sentence for each change among them.
#[derive(Drop)]
pub(crate) struct Proposal {
    pub words: String,
    pub sentences: Vec<String>,
    pub diff: String,
}

/// What is proposed by offers that are chosen, if they can be made of the text.
pub(crate) fn propose(
    alloc: Global,
    text: &[u8],
    set: &DriverSet,
    found: &Offers,
    choice: Choice,
) -> Result<Option<Proposal>, AllocError> {
    let mut mends = Vec::new(alloc);
    let mut summed = Summed {
        cost: 0,
        standing: Standing::Sure,
    };
    for (place, mending) in found.mendings.as_slice().iter().enumerate() {
        if let Some(offer) = chosen(place, mending, choice) {
            summed = summed.and(offer, choice);
            mends.push(Mend {
                rule: mending.refusal.rule,
                edits: offer.edits.as_slice(),
            })?;
        }
    }
    proposed(alloc, text, set, mends.as_slice(), summed)
}

/// What is proposed by mends, if they can be made of the text.
fn proposed(
    alloc: Global,
    text: &[u8],
    set: &DriverSet,
    mends: &[Mend<'_>],
    summed: Summed,
) -> Result<Option<Proposal>, AllocError> {
    match mend_text(alloc, text, set, mends)? {
        Some(mended) => {
            let words = words_on(alloc, &mended, summed)?;
            let diff = diff_of(alloc, text, &mended)?;
            let Mended { sentences, .. } = mended;
            Ok(Some(Proposal {
                words,
                sentences,
                diff,
            }))
        }
        None => Ok(None),
    }
}

/// The offer of a mending that is chosen.
fn chosen(place: usize, mending: &Mending, choice: Choice) -> Option<&Offer> {
    let number = if place == choice.mending {
        choice.offer
    } else {
        0
    };
    mending.offers.as_slice().get(number)
}

/// What several offers cost, and how sure they are.
#[derive(Clone, Copy)]
struct Summed {
    cost: u32,
    standing: Standing,
}

impl Summed {
    /// With one more, of those chosen so.
    fn and(self, offer: &Offer, choice: Choice) -> Summed {
        let sure = choice.offer == 0
            && self.standing == Standing::Sure
            && offer.standing == Standing::Sure;
        Summed {
            cost: self.cost.saturating_add(offer.cost),
            standing: if sure {
                Standing::Sure
            } else {
                Standing::Guess
            },
        }
    }
}

/// Words on changes of a text.
fn words_on(alloc: Global, mended: &Mended, summed: Summed) -> Result<String, AllocError> {
    let mut words = Words::new(alloc);
    words.add(match summed.standing {
        Standing::Sure => "sure",
        Standing::Guess => "a guess",
    });
    add_cost(&mut words, summed.cost);
    for sentence in mended.sentences.iter() {
        words.add("\n");
        words.add(sentence.as_str());
    }
    if summed.standing == Standing::Guess {
        add_guesses(&mut words, mended.guesses.as_slice())
    }
    words.finish()
}

/// Adds a cost in hundredths.
fn add_cost(words: &mut Words, cost: u32) {
    let (units, hundredths) = (cost / 100, cost % 100);
    words.add(", cost ");
    words.add_number(units as u64);
    words.add(".");
    words.add_number((hundredths / 10) as u64);
    words.add_number((hundredths % 10) as u64)
}

/// Adds what was guessed.
fn add_guesses(words: &mut Words, guesses: &[String]) {
    for (index, guess) in guesses.iter().enumerate() {
        words.add(if index == 0 { "\nguessed: " } else { ", " });
        words.add(guess.as_str());
    }
}

/// The diff of changes of a text.
fn diff_of(alloc: Global, text: &[u8], mended: &Mended) -> Result<String, AllocError> {
    let steps = steps_of(alloc, text, mended.changes.as_slice())?;
    let mut words = Words::new(alloc);
    diff(&mut words, text, steps.as_slice());
    words.finish()
}
