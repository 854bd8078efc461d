//! The lines that are told of a hunt that has found no run, or tells none.

ghost use Rattle.std.specs.Prelude.{◌≡◌, ◌++◌, IfOk, OnOk};
ghost use Rattle.hunt_schedule.specs.Lines.{all_line, fine_line, line_end, more_line, never_line};
ghost use Rattle.hunt_schedule.specs.Lines.{unlisted_line};

use crate::headline::headline;
use hunt_facts::bounds::Bounds;
use interleave_texts::appending::{add, add_number};
use std::alloc::{AllocError, Global};
use tell_audit::ending::Ending;

/// That a run ends so, and isn't told.
pub(crate) fn unlisted_line(alloc: Global, ending: &Ending) -> Result<Vec<u8>, AllocError>
    ensures { IfOk result (λ line. line.items ≡ unlisted_line ending.now) }
{
    let mut line = headline(alloc, ending)?;
    add(&mut line, b"; its schedule, read back, doesn't end so\n")?;
    Ok(line)
}

/// That all worlds were seen.
pub(crate) fn all_line(alloc: Global, bounds: Bounds, worlds: u64) -> Result<Vec<u8>, AllocError>
    ensures { IfOk result (λ line. line.items ≡ all_line bounds worlds) }
{
    let mut line = Vec::new(alloc);
    add(&mut line, b"none: all ")?;
    add_number(&mut line, worlds)?;
    add(&mut line, b" worlds of ")?;
    add_number(&mut line, u64::from(bounds.threads))?;
    add(&mut line, b" threads and ")?;
    add_number(&mut line, bounds.packets as u64)?;
    add(&mut line, b" packets seen\n")?;
    Ok(line)
}

/// Adds what isn't looked for in a refused set where packets are bounded in all, and the end of the
/// line.
fn add_end(line: &mut Vec<u8>, refused: bool) -> Result<(), AllocError>
    ensures { OnOk result (line.new.items ≡ line.old.items ++ line_end refused) }
{
    if refused {
        add(
            line,
            b"; a status that disagrees with its mark isn't looked for\n",
        )
    } else {
        add(line, b"\n")
    }
}

/// That all worlds were seen, where packets are bounded in all.
pub(crate) fn never_line(
    alloc: Global,
    bounds: Bounds,
    worlds: u64,
    refused: bool,
) -> Result<Vec<u8>, AllocError>
    ensures { IfOk result (λ line. line.items ≡ never_line bounds worlds refused) }
{
    let mut line = Vec::new(alloc);
    add(&mut line, b"none: all worlds of ")?;
    add_number(&mut line, u64::from(bounds.threads))?;
    add(&mut line, b" threads and ")?;
    add_number(&mut line, bounds.packets as u64)?;
    add(&mut line, b" packets in all seen, at most ")?;
    add_number(&mut line, worlds)?;
    add_end(&mut line, refused)?;
    Ok(line)
}

/// That more worlds are left.
pub(crate) fn more_line(alloc: Global, worlds: u64, events: u64) -> Result<Vec<u8>, AllocError>
    ensures { IfOk result (λ line. line.items ≡ more_line worlds events) }
{
    let mut line = Vec::new(alloc);
    add(&mut line, b"none in runs of up to ")?;
    add_number(&mut line, events)?;
    add(&mut line, b" events: ")?;
    add_number(&mut line, worlds)?;
    add(&mut line, b" worlds seen, more left\n")?;
    Ok(line)
}

/// That more worlds are left, where packets are bounded in all.
pub(crate) fn fine_line(
    alloc: Global,
    bounds: Bounds,
    worlds: u64,
    events: u64,
    refused: bool,
) -> Result<Vec<u8>, AllocError>
    ensures { IfOk result (λ line. line.items ≡ fine_line bounds worlds events refused) }
{
    let mut line = Vec::new(alloc);
    add(&mut line, b"none in runs of up to ")?;
    add_number(&mut line, events)?;
    add(&mut line, b" events and ")?;
    add_number(&mut line, bounds.packets as u64)?;
    add(&mut line, b" packets in all: ")?;
    add_number(&mut line, worlds)?;
    add(&mut line, b" worlds seen, more left")?;
    add_end(&mut line, refused)?;
    Ok(line)
}
