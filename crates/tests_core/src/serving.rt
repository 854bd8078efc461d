//! Workers that serve a queue of commands. That each command is performed once, held or left, and
//! what is told of it, is said by contracts.

ghost use Rattle.std.specs.Prelude.{◌≤◌};
ghost use Rattle.model.specs.declared.limits.TheConstants.{MAX_THREADS};

use crate::pace::{Pace, TOGETHER, Watch};
use crate::served::serve_all;
use crate::sets::{READ, core_of};
use model::history::{Command, Name};
use std::alloc::Global;
use std::process::Abort;
use std::sync::Wait;
use std::thread::Threads;
use std::time::Clock;
use tests_vectors::{ONE_READ_TEXT, QUEUED};

/// Many commands are 100 requests, 50 cancels of every other of these, and 100 interrupts.
const REQUESTS: u64 = 100;

const CANCELS: u64 = 50;

const COMMANDS: u64 = 250;

/// The command of a number.
fn command_of(number: u64) -> Command {
    if number < REQUESTS {
        return READ;
    }
    if number < REQUESTS + CANCELS {
        let name = Name {
            submitter: 0,
            count: (number - REQUESTS) * 2,
        };
        return Command::Cancel { name, level: 0 };
    }
    Command::Interrupt { device: 0 }
}

/// All of many commands.
fn many_commands<R: Abort>(rt: &R, alloc: Global) -> Vec<Command> {
    let mut commands = Vec::new(alloc);
    for number in 0..COMMANDS {
        commands.push(command_of(number)).expect(rt, "memory");
    }
    commands
}

/// One worker performs a request and an interrupt, and does all that they ask for; one, two, four
/// and 64 workers perform all of many commands; and four end at a full history.
#[test]
fn workers_serve_many_commands(rt: HostRuntime) {
    let alloc = rt.alloc();
    let few = [READ, Command::Interrupt { device: 0 }];
    assert_eq!(rt; entries_of(&rt, alloc, few.as_slice(), 1), 17);
    let many = many_commands(&rt, alloc);
    for workers in [1, 2, 4, 64u8] {
        entries_of(&rt, alloc, many.as_slice(), workers);
    }
    fill(&rt, alloc, many.as_slice());
}

/// How many entries so many workers make, which perform all of these commands. Each told the gate
/// of the entries that it made.
fn entries_of<R: Threads + Wait + Abort + Sync>(
    rt: &R,
    alloc: Global,
    commands: &[Command],
    workers: u8,
) -> usize
    requires some { 1 ≤ workers }
    requires few { workers ≤ MAX_THREADS }
{
    let core = core_of(rt, alloc, QUEUED, workers, 1_000_000);
    let watch = Watch::new();
    let account = serve_all(rt, alloc, core, workers, commands, &watch);
    assert!(rt; watch.ended_with(account.counts.as_slice()));
    assert!(rt;
        account.is_of(workers as usize, commands.len()),
        "with {workers} workers"
    );
    account.entries
}

/// Four workers end at a full history, which has room for 100 entries.
fn fill<R: Threads + Wait + Abort + Sync>(rt: &R, alloc: Global, commands: &[Command]) {
    let core = core_of(rt, alloc, QUEUED, 4, 100);
    let account = serve_all(rt, alloc, core, 4, commands, &Watch::new());
    assert!(rt; account.full && account.started == 4);
}

/// Workers perform 200 requests side by side: two of them the first 100 entries of each, and all
/// entries; and 64 the first three requests of each.
#[test]
fn workers_overlap(rt: HostRuntime) {
    let alloc = rt.alloc();
    for (workers, bound) in [(2, TOGETHER), (2, 400), (64u8, 12)] {
        let clock = rt.clone().ok().expect(&rt, "a clock");
        let pace = Pace::new(clock, workers as usize, bound);
        serve_together(&rt, alloc, workers, &pace);
    }
}

/// So many workers perform 200 requests at a gate that makes them overlap, each of them so many
/// entries.
fn serve_together<R: Threads + Wait + Abort + Sync, C: Clock + Sync>(
    rt: &R,
    alloc: Global,
    workers: u8,
    pace: &Pace<C>,
)
    requires some { 1 ≤ workers }
    requires few { workers ≤ MAX_THREADS }
{
    let core = core_of(rt, alloc, ONE_READ_TEXT, workers, 1_000_000);
    let commands = [READ; 200];
    let account = serve_all(rt, alloc, core, workers, commands.as_slice(), pace);
    assert!(rt; pace.held(), "with {workers} workers");
    assert!(rt; pace.watch().ended_with(account.counts.as_slice()));
    assert!(rt; account.is_of(workers as usize, 200) && account.entries == 800);
}
