//! A hunt through the runs of a driver set.

ghost use Rattle.std.specs.Prelude.{◌≡◌, IfOk};
ghost use Rattle.drvhost_devices.specs.Device.{Bytes};
ghost use Rattle.answer_hunts.specs.Hunt.{IsHuntOf, IsToldBy, end_told, text_told};

use answer::as_text::{Text, ended};
use answer::content::Given;
use answer::deliver::answer_to;
use answer::judged::Unjudged;
use answer::set::OnAnySet;
use drvhost_devices::fault::End;
use drvhost_devices::reading::source_of;
use drvhost_devices::told::Told;
use hunt_facts::reach::Reach;
use hunt_schedule::exact::tell_exactly;
use hunt_schedule::grounds::Grounds;
use hunt_schedule::telling::{Told as Hunted, tell_hunting};
use image::DriverSet;
use report_progress::progress::{Progress, Silent};
use std::alloc::{AllocError, Global};

/// How runs are searched.
#[derive(Clone, Copy)]
pub enum Way {
    /// Worlds that differ only in what can't matter are taken for one; packets are bounded that
    /// live at once.
    Quick,
    /// No world is taken for another one; packets are bounded in all.
    Exact,
}

/// The job of hunting through the runs of a set, accepted or refused, for a shortest one that ends
/// amiss: within which bounds and how they are searched, and to whom it is told meanwhile how far
/// the search has come. A run that is found is written as a schedule whose first line tells how it
/// ends; where that is asked for, one that is stuck; or a line says that there is none within
/// reach. An exact hunt finds none only where there is none within reach, of any length, or none of
/// up to so many events; it looks for no run that is stuck. The exit status is 0 none, 1 found.
#[derive(Drop)]
pub struct Hunting<'p, P> {
    pub reach: Reach,
    pub way: Way,
    pub progress: &'p P,
}

impl<P: Progress> OnAnySet<Text> for Hunting<'_, P> {
    ghost use Rattle.answer_hunts.specs.Hunt.{IsHuntBy};

    ghost right = { λ hunting _ _ _. IsHuntBy hunting.way hunting.reach };

    fn on(
        &self,
        _form: &Text,
        alloc: Global,
        given: &Given<'_>,
        set: &DriverSet,
    ) -> Result<Told, AllocError> {
        let hunted = hunted_by(alloc, self, set, given.bytes)?;
        let mut text = Vec::new(alloc);
        text.extend_from_slice(text_told(&hunted))?;
        Ok(ended(alloc, end_told(&hunted), text))
    }
}

/// What a quick hunt through the runs of the set that bytes name answers.
///
/// # Errors
///
/// When memory runs out.
pub fn hunt(alloc: Global, reach: Reach, bytes: &[u8]) -> Result<Told, AllocError>
    ensures { IfOk result (IsHuntOf reach (Bytes bytes.now)) }
{
    let hunted = Unjudged {
        job: Hunting {
            reach,
            way: Way::Quick,
            progress: &Silent,
        },
        form: Text,
    };
    Ok(answer_to(&hunted, alloc, "", bytes)?)
}

/// What comes of a hunt, with the names and the lines of the text, or of an image's listing.
pub(crate) fn hunted_by<P: Progress>(
    alloc: Global,
    hunting: &Hunting<'_, P>,
    set: &DriverSet,
    bytes: &[u8],
) -> Result<Hunted, AllocError>
    ensures { IfOk result (IsToldBy hunting.now.way set.now hunting.now.reach) }
{
    let Ok(source) = source_of(alloc, bytes, set) else {
        return Err(AllocError);
    };
    let grounds = Grounds {
        set,
        bounds: hunting.reach.bounds(),
        source: source.as_slice(),
    };
    match hunting.way {
        Way::Quick => tell_hunting(alloc, grounds, hunting.progress),
        Way::Exact => tell_exactly(alloc, grounds, hunting.progress),
    }
}

/// What is written of a hunt.
pub(crate) fn text_told(hunted: &Hunted) -> &[u8]
    ensures { result.now ≡ text_told hunted.now }
{
    match hunted {
        Hunted::Found(text) | Hunted::Unlisted(text) => text.as_slice(),
        Hunted::All { line, .. } | Hunted::More { line, .. } => line.as_slice(),
    }
}

/// How a hunt has ended.
pub(crate) fn end_told(hunted: &Hunted) -> End
    ensures { result ≡ end_told hunted.now }
{
    match hunted {
        Hunted::Found(_) | Hunted::Unlisted(_) => End::Stopped,
        Hunted::All { .. } | Hunted::More { .. } => End::Complete,
    }
}
