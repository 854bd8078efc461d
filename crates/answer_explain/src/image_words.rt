//! A fault of an image in words.

use image::ImageFault;
use std::alloc::{AllocError, Global};
use text_faults::advice::{add_expected, add_remedy, add_wrong};
use words::Words;

/// A fault of an image in words: what is at fault, and what may stand there. The fault has no
/// place: where the image ends is told, and of the others what they can be. The fault is one that
/// `image::decode` told of the image.
///
/// # Errors
///
/// When memory runs out.
pub(crate) fn image_words(
    alloc: Global,
    image: &[u8],
    fault: ImageFault,
) -> Result<String, AllocError> {
    let mut words = Words::new(alloc);
    words.add("\nin an image of ");
    words.add_number(image.len() as u64);
    words.add(" bytes\n");
    match fault {
        ImageFault::Magic => add_magic(&mut words, image),
        ImageFault::Truncated => add_truncated(&mut words),
        ImageFault::Trailing => add_trailing(&mut words),
        ImageFault::BadOpcode => add_number(
            &mut words,
            "a number that no instruction, sort or form of return has, or a byte that has to be \
             zero and isn't",
        ),
        ImageFault::OverLimit => add_number(
            &mut words,
            "a number out of its range, one that names nothing, or that of a routine of another \
             sort than is wanted there",
        ),
        ImageFault::Memory => {}
    }
    words.finish()
}

/// Adds that the edition is none that there is.
fn add_magic(words: &mut Words, image: &[u8]) {
    let byte = image.get(3).copied().unwrap_or(0);
    words.add("at fault: byte 4 is ");
    words.add_number(u64::from(byte));
    words.add(", and tells no edition of images\n");
    add_expected(
        words,
        "50 (the digit 2) for edition 2, or 49 (the digit 1) for edition 1",
    )
}

/// Adds that an image ends too early.
fn add_truncated(words: &mut Words) {
    add_wrong(
        words,
        "the image ends inside of a field, or before all that its counts tell",
    );
    add_expected(
        words,
        "as many drivers, queues, routines, instructions and devices as the counts before them say",
    )
}

/// Adds that an image goes on.
fn add_trailing(words: &mut Words) {
    add_wrong(words, "bytes behind the last device");
    add_expected(
        words,
        "nothing; bytes 5 and 6 say how many drivers and devices there are",
    )
}

/// Adds a number that is at fault, and how an image is made whose numbers are right.
fn add_number(words: &mut Words, wrong: &str) {
    add_wrong(words, wrong);
    add_remedy(
        words,
        "write the image anew from its text: `drvhost rewrite FILE OUT`",
    )
}
