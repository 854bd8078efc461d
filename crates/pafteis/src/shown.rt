//! A run of a set, for people.

ghost use Rattle.pafteis.specs.Shown.{Draws, Tells, telling_named};
ghost use Rattle.std.specs.Prelude.{◌≡◌};

use crate::texts::{put, verification_of, wrong};
use answer_views::tell::Telling;
use drvhost_devices::manner::{Detail, Manner, Strictness};
use drvhost_devices::verification::Verification;
use pafteis_parts::answers::{Run, run_as};
use std::alloc::Global;

/// A run of a set by a schedule in words, with an audit behind. The flags are the sum of 1 where
/// any set is run, 2 where a line is told of fewer events or 4 where it is told of each, and 8
/// where an event that was refused counts as a stop.
#[unsafe(no_mangle)]
pub extern "C" fn pafteis_tell(
    alloc: Global,
    set: &[u8],
    schedule: &[u8],
    flags: u32,
    buffer: &mut [u8],
    needed: &mut usize,
) -> u32
    ensures { Tells flags set.now schedule.now buffer.old buffer.new needed.new result }
{
    match telling_of(flags) {
        Some(telling) => put(
            run_as(alloc, set, schedule, Run::Tell(telling)),
            buffer,
            needed,
        ),
        None => wrong(needed),
    }
}

/// A run of a set by a schedule as a picture in SVG. Where `flags` is 0 a refused set isn't run,
/// where it is 1 any set is.
#[unsafe(no_mangle)]
pub extern "C" fn pafteis_draw(
    alloc: Global,
    set: &[u8],
    schedule: &[u8],
    flags: u32,
    buffer: &mut [u8],
    needed: &mut usize,
) -> u32
    ensures { Draws flags set.now schedule.now buffer.old buffer.new needed.new result }
{
    match verification_of(flags) {
        Some(verification) => put(
            run_as(alloc, set, schedule, Run::Draw(verification)),
            buffer,
            needed,
        ),
        None => wrong(needed),
    }
}

/// How a run is told, by its flags.
pub(crate) fn telling_of(flags: u32) -> Option<Telling>
    ensures { result ≡ telling_named flags }
{
    let detail = match flags / 2 % 4 {
        0 => Detail::Usual,
        1 => Detail::Quiet,
        2 => Detail::Every,
        _ => return None,
    };
    let strictness = match flags / 8 {
        0 => Strictness::Lenient,
        1 => Strictness::Strict,
        _ => return None,
    };
    let verification = if flags % 2 == 0 {
        Verification::Required
    } else {
        Verification::Skipped
    };
    Some(Telling {
        verification,
        manner: Manner { detail, strictness },
    })
}
