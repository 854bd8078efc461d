//! Histories of scripts that one worker serves, over targets that take few bytes a call, or fail at
//! each call in turn.

ghost use Rattle.std.specs.Prelude.{◌≡◌};

use crate::devices::{Narrow, Slow, have_taken};
use answer_runs::host::HostConfig;
use answer_runs::keeping::{Keeping, host_keeping};
use drvhost_devices::device::Sink;
use std::alloc::Global;
use std::sync::Wait;
use std::thread::Threads;
use tests_vectors::{EMPTY, ONE_READ_TEXT};
use workers::Open;

const SCRIPT: &[u8] = b"request 0 READ 7\ninterrupt 0\ncancel 0 2\n";

const SERVED: &[u8] = b"0 topped 0 0x00000000 0\n1 refused\n2 finished\nhistory 6 agrees\n";

/// The request and the three steps of its routine, and what is refused or comes too late.
const HISTORY: &[u8] = b"threads 1\nissue 0 0 READ 7\nstep 0 3\ninterrupt 0\ncancel 0 0 2\n";

const REFUSED: &[u8] = b"refused V1 Malformed driver 0 routine 0 at 0\n";

/// Has the script served on a set by one worker, and the history written. The answer is the exit
/// status.
fn keep<R: Threads + Wait + Sync>(
    rt: &R,
    alloc: Global,
    set: &[u8],
    out: &mut Narrow,
    target: &mut Narrow,
    err: &mut Narrow,
) -> u8
    requires out { ⟦<Narrow as Sink>⟧.failures out.old ≡ 0 }
    requires target { ⟦<Narrow as Sink>⟧.failures target.old ≡ 0 }
    requires err { ⟦<Narrow as Sink>⟧.failures err.old ≡ 0 }
{
    let mut set = Slow::new(set, 1, None);
    let mut script = Slow::new(SCRIPT, 1, None);
    let keeping = Keeping {
        alloc,
        hosting: HostConfig {
            runtime: rt,
            workers: 1,
            gate: &Open,
        },
    };
    host_keeping(&keeping, &mut set, &mut script, out, target, err)
}

/// Whether the history is written whole to a target that takes so many bytes a call.
fn is_kept_slowly<R: Threads + Wait + Sync>(rt: &R, alloc: Global, step: usize) -> bool {
    let mut out = Narrow::new(alloc, step, None);
    let mut target = Narrow::new(alloc, step, None);
    let mut err = Narrow::new(alloc, step, None);
    keep(rt, alloc, ONE_READ_TEXT, &mut out, &mut target, &mut err) == 0
        && out.written.as_slice() == SERVED
        && target.written.as_slice() == HISTORY
        && err.written.is_empty()
}

#[test]
fn few_bytes_of_a_history_a_call(rt: HostRuntime) {
    for step in [1, 7, 100] {
        assert!(rt; is_kept_slowly(&rt, rt.alloc(), step));
    }
}

/// Whether a write of the history that fails at this call is told, and a beginning of it is there,
/// with all lines.
fn tells_failed_history<R: Threads + Wait + Sync>(rt: &R, alloc: Global, calls: usize) -> bool {
    let mut out = Narrow::new(alloc, 100, None);
    let mut target = Narrow::new(alloc, 1, Some(calls));
    let mut err = Narrow::new(alloc, 100, None);
    let status = keep(rt, alloc, ONE_READ_TEXT, &mut out, &mut target, &mut err);
    out.written.as_slice() == SERVED && have_taken(&target, &err, status, HISTORY, calls)
}

#[test]
fn each_write_of_a_history_fails_in_turn(rt: HostRuntime) {
    for calls in 0..=HISTORY.len() {
        assert!(rt; tells_failed_history(&rt, rt.alloc(), calls));
    }
}

/// Whether a write of the lines that fails at this call is told, and no history is written.
fn keeps_nothing_then<R: Threads + Wait + Sync>(rt: &R, alloc: Global, calls: usize) -> bool {
    let mut out = Narrow::new(alloc, 1, Some(calls));
    let mut target = Narrow::new(alloc, 1, None);
    let mut err = Narrow::new(alloc, 100, None);
    let status = keep(rt, alloc, ONE_READ_TEXT, &mut out, &mut target, &mut err);
    have_taken(&out, &err, status, SERVED, calls) && target.written.is_empty()
}

#[test]
fn each_write_before_a_history_fails_in_turn(rt: HostRuntime) {
    for calls in 0..SERVED.len() {
        assert!(rt; keeps_nothing_then(&rt, rt.alloc(), calls));
    }
}

#[test]
fn a_refused_set_has_no_history(rt: HostRuntime) {
    let alloc = rt.alloc();
    let mut out = Narrow::new(alloc, 100, None);
    let mut target = Narrow::new(alloc, 100, None);
    let mut err = Narrow::new(alloc, 100, None);
    let status = keep(&rt, alloc, &EMPTY, &mut out, &mut target, &mut err);
    assert!(rt; status == 1 && out.written.as_slice() == REFUSED);
    assert!(rt; target.written.is_empty() && err.written.is_empty());
}
