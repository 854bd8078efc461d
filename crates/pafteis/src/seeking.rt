//! Runs that are looked for, and mends.

ghost use Rattle.std.specs.Prelude.{◌≡◌, ◌≤◌, true};
ghost use Rattle.pafteis.specs.Seeking.{Hunts, Mends, asked_named, if_flag, is_within, reach_named};

use crate::texts::{put, wrong};
use answer_mends::mend::MendOptions;
use drvhost_devices::tries::MAX_TRIES;
use hunt_facts::bounds::{Bounds, Goal};
use hunt_facts::reach::{MAX_PACKETS, MAX_WORLDS, Reach};
use model::limits::MAX_THREADS;
use pafteis_parts::answers;
use std::alloc::Global;

/// What a hunt looks for, and how far it goes.
#[repr(C)]
#[derive(Clone, Copy)]
pub struct HuntValue {
    /// Packets that live at once, 1 to 4096.
    pub packets: u64,
    /// Worlds that are kept, 1 to 1,000,000,000.
    pub worlds: u64,
    /// Events of a run, where a flag bounds them.
    pub events: u64,
    /// One more argument that requests are tried with, where a flag says so.
    pub argument: u64,
    /// Threads, 1 to 64.
    pub threads: u32,
    /// The sum of 1 where it looks for runs that are stuck too, 2 where events are bounded, and 4
    /// where there is one more argument.
    pub flags: u32,
}

/// A shortest run of a set that ends amiss, as a schedule whose first line tells how, or that none
/// is within reach; 4 where a number of what is asked is out of its range.
#[unsafe(no_mangle)]
pub extern "C" fn pafteis_hunt(
    alloc: Global,
    set: &[u8],
    asked: &HuntValue,
    buffer: &mut [u8],
    needed: &mut usize,
) -> u32
    ensures { Hunts set.now asked.now buffer.old buffer.new needed.new result }
{
    match reach_of(asked) {
        Some(reach) => put(answers::hunt(alloc, reach, set), buffer, needed),
        None => wrong(needed),
    }
}

/// Mends of a set's text, each as a diff, tried so often for each faulty routine, 1 to 1,000,000
/// times.
#[unsafe(no_mangle)]
pub extern "C" fn pafteis_mend(
    alloc: Global,
    set: &[u8],
    tries: u64,
    buffer: &mut [u8],
    needed: &mut usize,
) -> u32
    ensures { Mends set.now tries buffer.old buffer.new needed.new result }
{
    match asked_of(tries) {
        Some(asked) => put(answers::mend(alloc, asked, set), buffer, needed),
        None => wrong(needed),
    }
}

/// How far a hunt goes, where its numbers are within their ranges.
pub(crate) fn reach_of(asked: &HuntValue) -> Option<Reach>
    ensures { result ≡ reach_named asked.now }
{
    let HuntValue {
        packets,
        worlds,
        events,
        argument,
        threads,
        flags,
    } = *asked;
    if !is_within(MAX_THREADS as u64, u64::from(threads)) || !is_within(MAX_PACKETS, packets) {
        return None;
    }
    if !is_within(MAX_WORLDS, worlds) || flags > 7 {
        return None;
    }
    Some(Reach::of(Bounds {
        threads: threads as u8,
        packets: packets as usize,
        worlds: worlds as usize,
        events: if_flag(flags / 2 % 2, events),
        argument: if_flag(flags / 4, argument),
        goal: if flags % 2 == 1 {
            Goal::AmissOrStuck
        } else {
            Goal::Amiss
        },
    }))
}

/// Whether a number is one from 1 up to the most.
fn is_within(most: u64, n: u64) -> bool
    ensures is { result ≡ is_within most n }
    ensures least { result ≡ true → 1 ≤ n }
    ensures most { result ≡ true → n ≤ most }
{
    1 <= n && n <= most
}

/// A number where a flag is 1.
fn if_flag(flag: u32, number: u64) -> Option<u64>
    ensures { result ≡ if_flag flag number }
{
    if flag == 1 { Some(number) } else { None }
}

/// What is asked of a mend, where the number of tries is within its range.
pub(crate) fn asked_of(tries: u64) -> Option<MendOptions>
    ensures { result ≡ asked_named tries }
{
    if is_within(MAX_TRIES, tries) {
        Some(MendOptions { tries })
    } else {
        None
    }
}
