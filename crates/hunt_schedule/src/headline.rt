//! How a run ends, in one line.

ghost use Rattle.std.specs.Prelude.{◌≡◌, ◌++◌, IfOk, OnOk};
ghost use Rattle.hunt_schedule.specs.Headline.{amiss_words, bug_words, each_between, ending_words};
ghost use Rattle.hunt_schedule.specs.Headline.{headline, lock_words, of_device, place_words};
ghost use Rattle.hunt_schedule.specs.Headline.{reply_words, standing_words, subject_words};

use interleave_texts::appending::{add, add_number, add_numbered};
use model::event::{Bug, Lock, OfDevice, Place, Reply, Subject};
use std::alloc::{AllocError, Global};
use tell_audit::amiss::Amiss;
use tell_audit::ending::Ending;
use tell_audit::standing::Standing;

/// The line of a text that tells how a run ends.
pub(crate) fn headline(alloc: Global, ending: &Ending) -> Result<Vec<u8>, AllocError>
    ensures { IfOk result (λ line. line.items ≡ headline ending.now) }
{
    let mut line = Vec::new(alloc);
    add(&mut line, b"; ")?;
    add_ending(&mut line, ending)?;
    add(&mut line, b"\n")?;
    Ok(line)
}

fn add_ending(line: &mut Vec<u8>, ending: &Ending) -> Result<(), AllocError>
    ensures { OnOk result (line.new.items ≡ line.old.items ++ ending_words ending.now) }
{
    match ending {
        Ending::Fails(amiss) => add_amiss(line, amiss),
        Ending::Stuck(standing) => add_standing(line, standing),
    }
}

fn add_standing(line: &mut Vec<u8>, standing: &Standing) -> Result<(), AllocError>
    ensures { OnOk result (line.new.items ≡ line.old.items ++ standing_words standing.now) }
{
    add(line, b"not at rest")?;
    add_each(line, b"; thread ", standing.threads.as_slice(), b" is busy")?;
    add_each(line, b"; packet ", standing.packets.as_slice(), b" is live")?;
    let devices = standing.devices.as_slice();
    add_each(line, b"; device ", devices, b" is busy for StartIo")?;
    Ok(())
}

/// Adds each of some numbers between two parts of a text.
fn add_each(
    line: &mut Vec<u8>,
    before: &[u8],
    numbers: &[u64],
    after: &[u8],
) -> Result<(), AllocError>
    ensures { OnOk result
        (line.new.items ≡ line.old.items ++ each_between before.now numbers.now after.now) }
{
    for number in numbers {
        add_numbered(line, before, *number, after)?;
    }
    Ok(())
}

fn add_amiss(line: &mut Vec<u8>, amiss: &Amiss) -> Result<(), AllocError>
    ensures { OnOk result (line.new.items ≡ line.old.items ++ amiss_words amiss.now) }
{
    match *amiss {
        Amiss::Stopped(reply) => add_reply(line, &reply),
        Amiss::Lost(packet) => {
            add_numbered(line, b"packet ", packet, b" is lost: no place names it")
        }
        Amiss::Left(left) => {
            add_lock(line, left.lock)?;
            let thread = u64::from(left.thread);
            add_numbered(
                line,
                b" is left behind: thread ",
                thread,
                b" owns it and is idle",
            )
        }
        Amiss::Ringed(thread) => {
            add_numbered(line, b"thread ", u64::from(thread), b" waits in a ring")
        }
        Amiss::Disagrees(location_use) => add_numbered(
            line,
            b"packet ",
            location_use.packet(),
            b": a status was returned that disagrees with the mark",
        ),
    }
}

fn add_reply(line: &mut Vec<u8>, reply: &Reply) -> Result<(), AllocError>
    ensures { OnOk result (line.new.items ≡ line.old.items ++ reply_words reply.now) }
{
    match *reply {
        Reply::Bug(bug) => add_bug(line, bug),
        Reply::Wrong(place) => add_place(line, place),
        Reply::Started(_) | Reply::Stepped | Reply::Finished | Reply::Topped { .. } => Ok(()),
        Reply::Waited | Reply::Idle | Reply::Refused => Ok(()),
    }
}

fn add_bug(line: &mut Vec<u8>, bug: Bug) -> Result<(), AllocError>
    ensures { OnOk result (line.new.items ≡ line.old.items ++ bug_words bug) }
{
    add(line, b"bug ")?;
    add(line, bug.check.as_str().as_bytes())?;
    add(line, b" ")?;
    match bug.subject {
        Subject::Packet(packet) => {
            add(line, b"packet ")?;
            add_number(line, packet)
        }
        Subject::Lock(lock) => add_lock(line, lock),
        Subject::Cell(cell) => {
            add(line, b"cell ")?;
            add_of_device(line, cell)
        }
    }
}

fn add_place(line: &mut Vec<u8>, place: Place) -> Result<(), AllocError>
    ensures { OnOk result (line.new.items ≡ line.old.items ++ place_words place) }
{
    add(line, b"wrong ")?;
    add_number(line, u64::from(place.driver))?;
    add(line, b".")?;
    add_number(line, u64::from(place.routine))?;
    add(line, b".")?;
    add_number(line, u64::from(place.position))
}

fn add_lock(line: &mut Vec<u8>, lock: Lock) -> Result<(), AllocError>
    ensures { OnOk result (line.new.items ≡ line.old.items ++ lock_words lock) }
{
    match lock {
        Lock::SystemCancel => add(line, b"lock cancel"),
        Lock::Spin(spin) => {
            add(line, b"lock ")?;
            add_of_device(line, spin)
        }
    }
}

fn add_of_device(line: &mut Vec<u8>, thing: OfDevice) -> Result<(), AllocError>
    ensures { OnOk result (line.new.items ≡ line.old.items ++ of_device thing) }
{
    add_number(line, u64::from(thing.device))?;
    add(line, b".")?;
    add_number(line, u64::from(thing.number))
}
