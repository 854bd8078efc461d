//! Laws of images, in the words of their format. Nothing runs here: each law is the contract of a
//! function that does nothing.

ghost use Rattle.image.specs.Laws.{BytesSpellOne, EditionsOfImages, FaultIsOne};
ghost use Rattle.image.specs.Laws.{ImagesAreFaultless, NoImageBeginsAnother};

/// Bytes spell at most one set.
pub fn bytes_spell_one()
    ensures { BytesSpellOne }
{}

/// A set has one image of the second edition, and one of the first exactly if it is of that
/// edition.
#[tactic(auto, using(crate::proofs::Decoded::editions_of_images))]
pub fn editions_of_images()
    ensures { EditionsOfImages }
{}

/// No image begins another: what follows one in the same bytes is nothing.
pub fn no_image_begins_another()
    ensures { NoImageBeginsAnother }
{}

/// An image has no fault.
pub fn images_are_faultless()
    ensures { ImagesAreFaultless }
{}

/// Bytes that are no image have one first fault.
#[tactic(auto, using(crate::proofs::Decoded::fault_is_one))]
pub fn fault_is_one()
    ensures { FaultIsOne }
{}
