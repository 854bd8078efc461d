//! A script of requests, of their cancels and of interrupts, served by some workers and by many.

ghost use Rattle.std.specs.Prelude.{◌≤◌};
ghost use Rattle.model.specs.declared.limits.TheConstants.{MAX_THREADS};

use answer_runs::host::{HostConfig, host};
use drvhost_devices::device::{Reader, Writer};
use std::alloc::{AllocError, Global};
use std::process::Abort;
use std::sync::Wait;
use std::thread::Threads;
use tests_core::pace::Watch;
use tests_vectors::QUEUED;

/// The commands are 100 requests, 50 cancels of every other of these, and 100 interrupts.
const REQUESTS: u64 = 100;

const CANCELS: u64 = 50;

const COMMANDS: u64 = 250;

/// The script of these commands.
fn script(alloc: Global) -> Result<String, AllocError> {
    let mut script = String::new(alloc);
    for _ in 0..REQUESTS {
        script.push_str("request 0 READ 0\n")?;
    }
    for number in 0..CANCELS {
        let line = format!(in alloc; "cancel {} 0\n", 2 * number)?;
        script.push_str(line.as_str())?;
    }
    for _ in 0..COMMANDS - REQUESTS - CANCELS {
        script.push_str("interrupt 0\n")?;
    }
    Ok(script)
}

/// What goes out where so many workers serve a script, and the status is 0.
fn told_of<R: Threads + Wait + Abort + Sync>(
    rt: &R,
    alloc: Global,
    script: &str,
    workers: u8,
    watch: &Watch,
) -> Vec<u8>
    requires some { 1 ≤ workers }
    requires few { workers ≤ MAX_THREADS }
{
    let mut set = Reader::new(Some(QUEUED));
    let mut commands = Reader::new(Some(script.as_bytes()));
    let mut out = Writer::new(Vec::<u8>::new(alloc));
    let mut err = Writer::new(Vec::<u8>::new(alloc));
    let hosting = HostConfig {
        runtime: rt,
        workers,
        gate: watch,
    };
    let status = host(alloc, &mut set, &mut commands, &hosting, &mut out, &mut err);
    assert_eq!(rt; status, 0);
    assert!(rt; err.into_inner().is_empty());
    out.into_inner()
}

/// What is told of the command of a number, if that is what a line is about.
fn reply_of(line: &str, number: u64) -> Option<&str> {
    let (told, reply) = line.split_once(' ')?;
    if told.parse::<u64>().ok()? == number {
        Some(reply)
    } else {
        None
    }
}

/// The packet that a request started, where it is live or topped out as it may.
fn packet_of(reply: &str) -> Option<u64> {
    let (word, rest) = reply.split_once(' ')?;
    if word == "started" {
        return rest.parse::<u64>().ok();
    }
    let (packet, end) = rest.split_once(' ')?;
    if word == "topped" && (end == "0x00000000 0" || end == "0xC0000120 0") {
        packet.parse::<u64>().ok()
    } else {
        None
    }
}

/// Whether a cancel of a packet found its routine, and started it, or found none.
fn is_cancel_told(reply: &str, packet: u64) -> bool {
    match reply.strip_prefix("started ") {
        Some(number) => number.parse::<u64>().ok() == Some(packet),
        None => reply == "finished" || reply == "refused",
    }
}

/// The packets of the requests, in their order, by what is told of each.
#[derive(Drop)]
struct Packets {
    numbers: [u64; 100],
}

impl Packets {
    /// Takes in what is told of the command of a number: whether it may be.
    fn take_in(&mut self, reply: &str, number: u64) -> bool {
        if number < REQUESTS {
            let Some(packet) = packet_of(reply) else {
                return false;
            };
            self.numbers[number as usize] = packet;
            return true;
        }
        if number < REQUESTS + CANCELS {
            return is_cancel_told(reply, self.numbers[(number - REQUESTS) as usize * 2]);
        }
        reply == "stepped" || reply == "idle"
    }

    /// Whether each packet is one request's.
    fn are_all(&self) -> bool {
        let mut counts = [0u32; 100];
        for number in self.numbers {
            if let Some(count) = counts.get_mut(number as usize) {
                *count = count.saturating_add(1);
            }
        }
        counts.iter().all(|count| *count == 1)
    }
}

/// How many entries the history has, which agrees, by the last line.
fn entries_of(line: &str) -> Option<u64> {
    let number = line.strip_prefix("history ")?.strip_suffix(" agrees")?;
    number.parse::<u64>().ok()
}

/// How many entries the history has where a line stands for each command, in their order, and tells
/// what may be told of it, and each packet is one request's. None otherwise.
fn entries_told(told: &str) -> Option<u64> {
    let mut packets = Packets { numbers: [0; 100] };
    let mut number = 0u64;
    let mut entries = None;
    for line in told.lines() {
        if number < COMMANDS && packets.take_in(reply_of(line, number)?, number) {
            number = number.saturating_add(1);
        } else if number == COMMANDS && entries.is_none() {
            entries = Some(entries_of(line)?);
        } else {
            return None;
        }
    }
    if packets.are_all() { entries } else { None }
}

/// How many entries so many workers made, by what they asked the gate with last.
fn counted(watch: &Watch, workers: u8) -> u64 {
    let mut sum = 0u64;
    for worker in 0..workers {
        sum = sum.saturating_add(watch.counts_of(worker as usize).saturating_sub(1));
    }
    sum
}

/// Four workers and 64 perform all commands, and the history has the entries that they counted:
/// one of each command, and seven of each dispatch routine at least.
#[test]
fn scripts_are_hosted(rt: HostRuntime) {
    let alloc = rt.alloc();
    let script = script(alloc).ok().expect(&rt, "memory");
    for workers in [4, 64u8] {
        host_all(&rt, alloc, script.as_str(), workers);
    }
}

/// So many workers perform all commands.
fn host_all<R: Threads + Wait + Abort + Sync>(rt: &R, alloc: Global, script: &str, workers: u8)
    requires some { 1 ≤ workers }
    requires few { workers ≤ MAX_THREADS }
{
    let watch = Watch::new();
    let told = told_of(rt, alloc, script, workers, &watch);
    let told = str::from_utf8(told.as_slice()).ok().expect(rt, "text");
    let entries = entries_told(told).expect(rt, "a line for each command");
    assert!(rt; entries >= 950, "{entries} entries");
    assert_eq!(rt; counted(&watch, workers), entries);
    assert!(rt; !watch.has_failed());
}
