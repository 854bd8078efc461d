//! A run that ends amiss, made shorter, to a fixed point: whole roots are taken away, and parts of
//! it, and other roots are tried. What is tried is replayed, and is taken only where it ends amiss
//! too.

use crate::editing::{Size, without, without_root};
use crate::expanding::{Outcome, attempt, run_at};
use crate::luck::Luck;
use crate::others::try_others;
use crate::walking::{BEGIN, Ground};
use model::event::Event;
use std::alloc::AllocError;

/// How often all is tried again.
const MAX_ROUNDS: usize = 8;

/// Makes a run that ends amiss short: less so where there are no more steps to try others with.
pub(crate) fn shorten(
    ground: &Ground<'_>,
    luck: &mut Luck,
    short: &mut Vec<Event>,
) -> Result<(), AllocError> {
    for _round in 0..MAX_ROUNDS {
        let before = Size::of(short.as_slice());
        shorten_once(ground, luck, short)?;
        if !Size::of(short.as_slice()).is_below(before) {
            break;
        }
    }
    Ok(())
}

/// Tries all once.
fn shorten_once(
    ground: &Ground<'_>,
    luck: &mut Luck,
    short: &mut Vec<Event>,
) -> Result<(), AllocError> {
    drop_roots(ground, luck, short)?;
    drop_parts(ground, luck, short)?;
    try_others(ground, luck, short)
}

/// Takes other events in place of a run, as far as they go until something is amiss, if that is so
/// and they are less; answers whether it is.
pub(crate) fn take(
    ground: &Ground<'_>,
    luck: &mut Luck,
    short: &mut Vec<Event>,
    tried: &[Event],
) -> Result<bool, AllocError> {
    if luck.is_out() {
        return Ok(false);
    }
    let Some(kept) = kept(ground, luck, tried)? else {
        return Ok(false);
    };
    let is_less = Size::of(kept.as_slice()).is_below(Size::of(short.as_slice()));
    if is_less {
        *short = kept;
    }
    Ok(is_less)
}

/// The events of a run that change something, up to the first one behind which something is amiss,
/// if there is one.
fn kept(
    ground: &Ground<'_>,
    luck: &mut Luck,
    events: &[Event],
) -> Result<Option<Vec<Event>>, AllocError> {
    let mut run = run_at(ground.alloc, ground.set, ground.plan, [].as_slice())?;
    let mut kept = Vec::new(ground.alloc);
    luck.spend(BEGIN);
    for event in events {
        let outcome = attempt(&mut run, event)?;
        luck.spend(1);
        if !matches!(outcome, Outcome::Stays) {
            kept.push(*event)?;
        }
        if matches!(outcome, Outcome::Ends) {
            return Ok(Some(kept));
        }
    }
    Ok(None)
}

/// Tries a run without each of its roots, the last one first.
fn drop_roots(
    ground: &Ground<'_>,
    luck: &mut Luck,
    short: &mut Vec<Event>,
) -> Result<(), AllocError> {
    let most = short.len();
    for back in 0..most {
        let tried = without_root(ground.alloc, short.as_slice(), most - 1 - back)?;
        if !tried.is_empty() {
            let _is_less = take(ground, luck, short, tried.as_slice())?;
        }
    }
    Ok(())
}

/// Tries it without parts of it, of half its length first, and then always half as long.
fn drop_parts(
    ground: &Ground<'_>,
    luck: &mut Luck,
    short: &mut Vec<Event>,
) -> Result<(), AllocError> {
    let mut size = short.len() / 2;
    for _halving in 0..64 {
        if size == 0 {
            break;
        }
        drop_parts_of(ground, luck, short, size)?;
        size /= 2;
    }
    Ok(())
}

/// Tries it without each of its parts of this length.
fn drop_parts_of(
    ground: &Ground<'_>,
    luck: &mut Luck,
    short: &mut Vec<Event>,
    size: usize,
) -> Result<(), AllocError> {
    let mut place: usize = 0;
    for _part in 0..short.len() {
        if place >= short.len() {
            break;
        }
        let tried = without(ground.alloc, short.as_slice(), place, size)?;
        if !take(ground, luck, short, tried.as_slice())? {
            place = place.saturating_add(size);
        }
    }
    Ok(())
}
