//! Bytes in, bytes out.

ghost use Rattle.std.specs.Prelude.{◌≡◌, Some};
ghost use Rattle.drvhost_devices.specs.Device.{Bytes};
ghost use Rattle.drvhost_devices.specs.Ends.{IsCheckOf, IsListOf, IsRewriteOf};
ghost use Rattle.pafteis.specs.Called.{Answers, ExplainsRule, ExplainsSet, IsCheckedAs, Puts};
ghost use Rattle.pafteis.specs.Called.{PutsBytes, Traces, extent_named, verification_named};

use crate::worlds::DONE;
use drvhost_devices::extent::Extent;
use drvhost_devices::told::Told;
use drvhost_devices::verification::Verification;
use model::memory::OutOfMemory;
use pafteis_parts::answers::{self, Run, run_as};
use pafteis_parts::delivery::{deliver, place};
use pafteis_values::rule::rule_of;
use pafteis_values::verdict::VerdictValue;
use pafteis_world::admitting::judge;
use std::alloc::Global;

/// The status where memory was refused.
pub const NO_MEMORY: u32 = 3;
/// The status where an argument is a number that names nothing.
pub const WRONG_ARGUMENT: u32 = 4;

/// The verdict on the set that a text or an image names: 0 accepted, 1 refused, 2 faulty, 3 no
/// memory; and why not.
#[unsafe(no_mangle)]
pub extern "C" fn pafteis_check(alloc: Global, set: &[u8], verdict: &mut VerdictValue) -> u32
    ensures { IsCheckedAs set.now verdict.new result }
{
    let judged = judge(alloc, set);
    *verdict = judged.value();
    judged.status()
}

/// The same in the program's lines, with a certificate for each routine.
#[unsafe(no_mangle)]
pub extern "C" fn pafteis_report(
    alloc: Global,
    set: &[u8],
    buffer: &mut [u8],
    needed: &mut usize,
) -> u32
    ensures { Answers (IsCheckOf (Bytes set.now)) buffer.old buffer.new needed.new result }
{
    put(answers::check(alloc, set), buffer, needed)
}

/// The same with words behind: of the first fault where `extent` is 0, of each routine's where it
/// is 1.
#[unsafe(no_mangle)]
pub extern "C" fn pafteis_explain(
    alloc: Global,
    set: &[u8],
    extent: u32,
    buffer: &mut [u8],
    needed: &mut usize,
) -> u32
    ensures { ExplainsSet extent set.now buffer.old buffer.new needed.new result }
{
    match extent_of(extent) {
        Some(extent) => put(answers::explain(alloc, extent, set), buffer, needed),
        None => wrong(needed),
    }
}

/// How much is explained, by its number.
pub(crate) fn extent_of(extent: u32) -> Option<Extent>
    ensures { result ≡ extent_named extent }
{
    match extent {
        0 => Some(Extent::First),
        1 => Some(Extent::Each),
        _ => None,
    }
}

/// A rule in words, by its number, 1 to 20.
#[unsafe(no_mangle)]
pub extern "C" fn pafteis_explain_rule(
    alloc: Global,
    rule: u32,
    buffer: &mut [u8],
    needed: &mut usize,
) -> u32
    ensures { ExplainsRule rule buffer.old buffer.new needed.new result }
{
    match rule_of(rule) {
        Some(rule) => put(answers::explain_rule(alloc, rule), buffer, needed),
        None => wrong(needed),
    }
}

/// The trace of a set by a schedule. Where `flags` is 0 a refused set isn't run, where it is 1 any
/// set is.
#[unsafe(no_mangle)]
pub extern "C" fn pafteis_trace(
    alloc: Global,
    set: &[u8],
    schedule: &[u8],
    flags: u32,
    buffer: &mut [u8],
    needed: &mut usize,
) -> u32
    ensures { Traces flags set.now schedule.now buffer.old buffer.new needed.new result }
{
    match verification_of(flags) {
        Some(verification) => put(
            run_as(alloc, set, schedule, Run::Trace(verification)),
            buffer,
            needed,
        ),
        None => wrong(needed),
    }
}

/// Whether a set has to be accepted, by the flags.
pub(crate) fn verification_of(flags: u32) -> Option<Verification>
    ensures { result ≡ verification_named flags }
{
    match flags {
        0 => Some(Verification::Required),
        1 => Some(Verification::Skipped),
        _ => None,
    }
}

/// The listing of a set.
#[unsafe(no_mangle)]
pub extern "C" fn pafteis_list(
    alloc: Global,
    set: &[u8],
    buffer: &mut [u8],
    needed: &mut usize,
) -> u32
    ensures { Answers (IsListOf (Bytes set.now)) buffer.old buffer.new needed.new result }
{
    put(answers::list(alloc, set), buffer, needed)
}

/// The image of a set, of the second edition.
#[unsafe(no_mangle)]
pub extern "C" fn pafteis_rewrite(
    alloc: Global,
    set: &[u8],
    buffer: &mut [u8],
    needed: &mut usize,
) -> u32
    ensures { Answers (IsRewriteOf (Bytes set.now)) buffer.old buffer.new needed.new result }
{
    put(answers::rewrite(alloc, set), buffer, needed)
}

/// An argument names nothing.
pub(crate) fn wrong(needed: &mut usize) -> u32
    ensures status { result ≡ WRONG_ARGUMENT }
    ensures needed { needed.new ≡ 0 }
{
    *needed = 0;
    WRONG_ARGUMENT
}

/// Puts an answer into a buffer and says how many bytes it has.
pub(crate) fn put(told: Result<Told, OutOfMemory>, buffer: &mut [u8], needed: &mut usize) -> u32
    ensures { Puts told buffer.old buffer.new needed.new result }
{
    let delivered = deliver(told, buffer);
    *needed = delivered.needed;
    delivered.status
}

/// Puts bytes into a buffer and says how many they are.
pub(crate) fn put_bytes(bytes: &[u8], buffer: &mut [u8], needed: &mut usize) -> u32
    ensures { PutsBytes (Some bytes.now) buffer.old buffer.new needed.new result }
{
    *needed = place(bytes, &[], buffer);
    DONE
}
