//! Workers whose threads wait for each other in a ring.

ghost use Rattle.std.specs.Prelude.{◌≡◌, ◌≤◌, None, replicate};
ghost use Rattle.model.specs.declared.limits.TheConstants.{MAX_THREADS};

use crate::crossing::Crossing;
use crate::served::{Account, filled, serve_all};
use crate::sets::{CROSSES, READ, core_of};
use hostcore::Core;
use model::history::Command;
use model::status::Major;
use std::alloc::Global;
use std::process::Abort;
use std::sync::Wait;
use std::thread::Threads;
use std::time::Clock;
use workers::serve;

/// A write of device 0.
const WRITE: Command = Command::Request {
    device: 0,
    major: Major::Write,
    argument: 0,
};

/// How often they are served.
const TIMES: usize = 200;

/// Two workers, eight and 32 end where two of their threads wait for each other, and those of the
/// others for these. They are asked for a read, a write, and then reads.
#[test]
fn workers_in_a_ring_end(rt: HostRuntime) {
    let alloc = rt.alloc();
    let mut requests = vec![in alloc; READ; 40].ok().expect(&rt, "memory");
    requests[1] = WRITE;
    for workers in [2, 8, 32u8] {
        for _ in 0..TIMES {
            let clock = rt.clone().ok().expect(&rt, "a clock");
            serve_ring(
                &rt,
                alloc,
                requests.as_slice(),
                workers,
                &Crossing::new(clock),
            );
        }
    }
}

/// So many workers serve requests, and end.
fn serve_ring<R: Threads + Wait + Abort + Sync, C: Clock + Sync>(
    rt: &R,
    alloc: Global,
    requests: &[Command],
    workers: u8,
    crossing: &Crossing<C>,
)
    requires some { 1 ≤ workers }
    requires few { workers ≤ MAX_THREADS }
{
    let core = core_of(rt, alloc, CROSSES, workers, 1_000);
    let account = serve_all(rt, alloc, core, workers, requests, crossing);
    assert!(rt; crossing.watch().ended_with(account.counts.as_slice()));
    assert!(rt; is_ring(&account, workers as usize));
}

/// Whether each worker began a request. Two had a lock each, and no other got one. What is left was
/// not begun.
fn is_ring(account: &Account, workers: usize) -> bool {
    account.is_of(workers, workers) && account.entries == workers.saturating_add(2)
}

/// Two workers in a ring end at a queue that is open still.
#[test]
fn workers_in_a_ring_end_at_an_open_queue(rt: HostRuntime) {
    let core = core_of(&rt, rt.alloc(), CROSSES, 2, 100);
    let clock = rt.clone().ok().expect(&rt, "a clock");
    let account = serve_open(&rt, rt.alloc(), core, &Crossing::new(clock));
    assert!(rt; is_ring(&account, 2));
}

/// Two workers serve a read and a write of a queue that nobody closes.
fn serve_open<R: Threads + Wait + Abort + Sync, C: Clock + Sync>(
    rt: &R,
    alloc: Global,
    core: Core,
    crossing: &Crossing<C>,
) -> Account
    requires threads { core.threads ≡ 2 }
    requires free { core.seats ≡ replicate core.threads None }
{
    let (intake, takers) = filled(rt, alloc, &core, 2, [READ, WRITE].as_slice());
    Account::of(serve(rt, alloc, core, &intake, takers, crossing))
}
