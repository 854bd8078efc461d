//! Driver sets, read from files: images and texts; and schedules.

ghost use Rattle.std.specs.Prelude.{◌≡◌, ◌+◌, Err, IfErr, IfOk};
ghost use Rattle.interleave.specs.Listing.{IsWithinLimits};
ghost use Rattle.drvhost_devices.specs.Answer.{is_image};
ghost use Rattle.drvhost_devices.specs.Device.{Bytes, CanCount};
ghost use Rattle.drvhost_devices.specs.Fault.{ReadsSchedule, ReadsSet, SaysImage, SaysText};
ghost use Rattle.drvhost_devices.specs.Fault.{reads_failed};

use crate::device::Source;
use crate::fault::{Fault, of_image, of_schedule, of_text};
use crate::transfer::read_whole;
use image::DriverSet;
use interleave::parse::parse_schedule;
use interleave::schedule::Schedule;
use std::alloc::Global;

/// The set that the bytes of a source name: those of an image, or of a text.
pub fn read_set<S: Source>(alloc: Global, source: &mut S) -> Result<DriverSet, Fault>
    requires { CanCount (S.failures source.old) }
    ensures set { ReadsSet (S.supply source.old) result }
    ensures reads { S.failures source.new ≡ S.failures source.old + reads_failed result }
{
    let bytes = read_whole(alloc, source)?;
    set_of(alloc, bytes.as_slice())
}

/// The set that bytes name: those of an image, or of a text.
pub fn set_of(alloc: Global, bytes: &[u8]) -> Result<DriverSet, Fault>
    ensures set { ReadsSet (Bytes bytes.now) result }
    ensures reads { reads_failed result ≡ 0 }
{
    if begins_image(bytes) {
        set_of_image(alloc, bytes)
    } else {
        set_of_text(alloc, bytes)
    }
}

/// Whether the bytes of a file are those of an image.
pub fn begins_image(bytes: &[u8]) -> bool
    ensures { result ≡ is_image bytes.now }
{
    bytes.starts_with(&[0x44, 0x56, 0x42])
}

/// A text that names a set: the one that these bytes are, or the listing of the set of an image.
pub fn source_of(alloc: Global, bytes: &[u8], set: &DriverSet) -> Result<Vec<u8>, Fault>
    ensures { IfErr result (λ fault. fault ≡ Fault.Memory) }
{
    if begins_image(bytes) {
        return Ok(asm::disassemble(alloc, set)?.into_bytes());
    }
    let mut source = Vec::new(alloc);
    source.extend_from_slice(bytes)?;
    Ok(source)
}

/// The set that an image spells.
fn set_of_image(alloc: Global, bytes: &[u8]) -> Result<DriverSet, Fault>
    ensures { SaysImage bytes.now result }
{
    match image::decode(alloc, bytes) {
        Ok(set) => Ok(set),
        Err(fault) => Err(of_image(fault)),
    }
}

/// The set that a text names.
fn set_of_text(alloc: Global, bytes: &[u8]) -> Result<DriverSet, Fault>
    ensures { SaysText bytes.now result }
{
    match asm::assemble(alloc, bytes) {
        Ok(set) => Ok(set),
        Err(fault) => Err(of_text(fault)),
    }
}

/// The schedule that the text of a source lists.
pub fn read_schedule<S: Source>(alloc: Global, source: &mut S) -> Result<Schedule, Fault>
    requires { CanCount (S.failures source.old) }
    ensures schedule { ReadsSchedule (S.supply source.old) result }
    ensures reads { S.failures source.new ≡ S.failures source.old + reads_failed result }
    ensures limits { IfOk result IsWithinLimits }
{
    let text = read_whole(alloc, source)?;
    schedule_of(alloc, text.as_slice())
}

/// The schedule that a text lists.
pub fn schedule_of(alloc: Global, text: &[u8]) -> Result<Schedule, Fault>
    ensures schedule { ReadsSchedule (Bytes text.now) result }
    ensures reads { reads_failed result ≡ 0 }
    ensures limits { IfOk result IsWithinLimits }
{
    match parse_schedule(alloc, text) {
        Ok(schedule) => Ok(schedule),
        Err(fault) => Err(of_schedule(fault)),
    }
}
