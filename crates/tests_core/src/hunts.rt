//! Exact hunts of a set that is accepted, and takes two locks in both orders.

ghost use Rattle.std.specs.Prelude.{◌≤◌};
ghost use Rattle.model.specs.declared.limits.TheConstants.{MAX_THREADS};

use asm::assemble;
use hunt_exact::moves::Trying;
use hunt_exact::search::{Exactly, Limits, hunt_exactly};
use hunt_facts::requests::Request;
use model::status::Major;
use report_progress::progress::Silent;
use std::alloc::{AllocError, Global};
use std::process::Abort;
use std::test::Fail;
use tests_vectors::BOTH_WAYS;

/// The device of the driver that takes two locks both ways.
const DEVICE: u8 = 1;

/// A read and a write, of so many packets in all.
fn reading_and_writing(alloc: Global, packets: u64) -> Result<Trying, AllocError> {
    let mut requests = Vec::new(alloc);
    for major in [Major::Read, Major::Write] {
        requests.push(Request {
            device: DEVICE,
            major,
            argument: 0,
        })?;
    }
    Ok(Trying {
        requests,
        packets,
        raised: true,
    })
}

/// What comes of a hunt on so many threads, with so many packets.
fn hunted<R: Abort>(
    rt: &R,
    alloc: Global,
    threads: u8,
    packets: u64,
    worlds: usize,
) -> Result<Exactly, AllocError>
    requires some { 1 ≤ threads }
    requires few { threads ≤ MAX_THREADS }
{
    let set = assemble(alloc, BOTH_WAYS).ok().expect(rt, "a set");
    let trying = reading_and_writing(alloc, packets)?;
    let limits = Limits {
        worlds,
        events: None,
    };
    hunt_exactly(alloc, &set, threads, &trying, limits, &Silent)
}

#[test]
fn a_ring_is_found_by_its_shortest_run(rt: HostRuntime) -> Result<(), Fail> {
    let Exactly::Found(find) = hunted(&rt, rt.alloc(), 2, 2, 100_000)? else {
        panic!(rt; "a ring")
    };
    assert!(rt; find.before.len() == 3);
    Ok(())
}

#[test]
fn one_thread_never_waits(rt: HostRuntime) -> Result<(), Fail> {
    let Exactly::Never { worlds } = hunted(&rt, rt.alloc(), 1, 1, 100_000)? else {
        panic!(rt; "no ring")
    };
    assert!(rt; worlds > 10);
    Ok(())
}

#[test]
fn so_many_worlds_are_kept(rt: HostRuntime) -> Result<(), Fail> {
    let Exactly::More { events, .. } = hunted(&rt, rt.alloc(), 1, 1, 10)? else {
        panic!(rt; "more worlds")
    };
    assert!(rt; events > 1);
    Ok(())
}
