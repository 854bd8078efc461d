//! Two workers that serve a script side by side.

use answer_runs::host::{HostConfig, host};
use drvhost_devices::device::{Reader, Writer};
use std::alloc::Global;
use std::process::Abort;
use std::sync::Wait;
use std::thread::Threads;
use std::time::Clock;
use tests_core::pace::{Pace, TOGETHER};
use tests_vectors::ONE_READ_TEXT;

/// How many reads the script asks for.
const READS: usize = 200;

/// The last line of what goes out: each read is begun, and steps three times.
const AGREES: &[u8] = b"history 800 agrees\n";

/// A script of so many reads.
fn reads<R: Abort>(rt: &R, alloc: Global) -> Vec<u8> {
    let mut script = Vec::new(alloc);
    for _ in 0..READS {
        script
            .extend_from_slice(b"request 0 READ 0\n")
            .expect(rt, "memory");
    }
    script
}

/// `host` has its commands served by two workers that take their turns side by side: the first 100
/// entries of each, and all of them.
#[test]
fn workers_of_a_script_overlap(rt: HostRuntime) {
    let alloc = rt.alloc();
    let script = reads(&rt, alloc);
    for bound in [TOGETHER, 400] {
        let clock = rt.clone().ok().expect(&rt, "a clock");
        let pace = Pace::new(clock, 2, bound);
        serve_reads(&rt, alloc, script.as_slice(), &pace);
        assert!(rt; pace.held(), "up to {bound}");
    }
}

/// Two workers serve a script of reads. They count the entries that the history has.
fn serve_reads<R: Threads + Wait + Abort + Sync, C: Clock + Sync>(
    rt: &R,
    alloc: Global,
    script: &[u8],
    pace: &Pace<C>,
) {
    let mut set = Reader::new(Some(ONE_READ_TEXT));
    let mut commands = Reader::new(Some(script));
    let mut out = Writer::new(Vec::<u8>::new(alloc));
    let mut err = Writer::new(Vec::<u8>::new(alloc));
    let hosting = HostConfig {
        runtime: rt,
        workers: 2,
        gate: pace,
    };
    let status = host(alloc, &mut set, &mut commands, &hosting, &mut out, &mut err);
    assert_eq!(rt; status, 0);
    assert!(rt; err.into_inner().is_empty());
    assert!(rt; out.into_inner().as_slice().ends_with(AGREES));
    let watch = pace.watch();
    let asked = watch.counts_of(0).saturating_add(watch.counts_of(1));
    assert_eq!(rt; asked, 802);
}
