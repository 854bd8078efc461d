//! Workers of a script whose threads wait for each other in a ring.

ghost use Rattle.std.specs.Prelude.{◌≤◌};
ghost use Rattle.model.specs.declared.limits.TheConstants.{MAX_THREADS};

use answer_runs::host::{HostConfig, host};
use drvhost_devices::device::{Reader, Writer};
use drvhost_told::host::{HostOptions, host_json};
use std::alloc::{AllocError, Global};
use std::process::Abort;
use std::sync::Wait;
use std::thread::Threads;
use std::time::Clock;
use tests_core::crossing::Crossing;

/// A driver that completes each read and each write at once, after it had two locks: a read takes
/// them in one order, and a write in the other.
const CROSSES: &[u8] = b"driver pair\ndispatch READ on_read\ndispatch WRITE on_write\n\
      routine on_read dispatch\nacquire l0\nacquire l1\nrelease l1\nrelease l0\n\
      complete r0 SUCCESS\nret SUCCESS\nendr\n\
      routine on_write dispatch\nacquire l1\nacquire l0\nrelease l0\nrelease l1\n\
      complete r0 SUCCESS\nret SUCCESS\nendr\nendd\ndevice disk pair 1\n";

/// What is told of the set before the workers start.
const WARNING: &str = "driver pair takes its locks in a cycle (on_read line 6, on_write line 14): \
     workers may wait for each other for ever\n";

/// How many requests the script has: a read, a write, and then reads.
const REQUESTS: usize = 40;

/// How often it is served.
const TIMES: usize = 200;

/// The script.
fn script(alloc: Global) -> Result<String, AllocError> {
    let mut script = String::new(alloc);
    script.push_str("request 0 READ 0\nrequest 0 WRITE 0\n")?;
    for _ in 2..REQUESTS {
        script.push_str("request 0 READ 0\n")?;
    }
    Ok(script)
}

/// `host` ends with two workers, with eight and with 32: it warns of the cycle, and then names the
/// threads in the ring.
#[test]
fn scripts_end_in_a_ring(rt: HostRuntime) {
    let alloc = rt.alloc();
    let script = script(alloc).ok().expect(&rt, "memory");
    for workers in [2, 8, 32u8] {
        for _ in 0..TIMES {
            let clock = rt.clone().ok().expect(&rt, "a clock");
            end_in_ring(&rt, alloc, script.as_str(), workers, &Crossing::new(clock));
        }
    }
}

/// So many workers end in a ring.
fn end_in_ring<R: Threads + Wait + Abort + Sync, C: Clock + Sync>(
    rt: &R,
    alloc: Global,
    script: &str,
    workers: u8,
    crossing: &Crossing<C>,
)
    requires some { 1 ≤ workers }
    requires few { workers ≤ MAX_THREADS }
{
    let mut set = Reader::new(Some(CROSSES));
    let mut commands = Reader::new(Some(script.as_bytes()));
    let mut out = Writer::new(Vec::<u8>::new(alloc));
    let mut err = Writer::new(Vec::<u8>::new(alloc));
    let hosting = HostConfig {
        runtime: rt,
        workers,
        gate: crossing,
    };
    let status = host(alloc, &mut set, &mut commands, &hosting, &mut out, &mut err);
    assert_eq!(rt; status, 1);
    let out = out.into_inner();
    let told = str::from_utf8(out.as_slice()).ok().expect(rt, "text");
    check_lines(rt, told, workers as usize);
    let err = err.into_inner();
    let told = str::from_utf8(err.as_slice()).ok().expect(rt, "text");
    let rings = told.strip_prefix(WARNING).expect(rt, "a warning");
    assert!(rt; is_ring(rings), "{told}");
}

/// In JSON the last object has the numbers of the threads in the ring, and no line warns of it.
#[test]
fn scripts_end_in_a_ring_in_json(rt: HostRuntime) {
    let alloc = rt.alloc();
    let script = script(alloc).ok().expect(&rt, "memory");
    for _ in 0..TIMES {
        let clock = rt.clone().ok().expect(&rt, "a clock");
        end_in_json(&rt, alloc, script.as_str(), &Crossing::new(clock));
    }
}

/// Two workers end in a ring: each began a request, and the others are left.
fn end_in_json<R: Threads + Wait + Abort + Sync, C: Clock + Sync>(
    rt: &R,
    alloc: Global,
    script: &str,
    crossing: &Crossing<C>,
) {
    let mut set = Reader::new(Some(CROSSES));
    let mut commands = Reader::new(Some(script.as_bytes()));
    let mut out = Writer::new(Vec::<u8>::new(alloc));
    let mut err = Writer::new(Vec::<u8>::new(alloc));
    let asked = HostOptions {
        set: "pair.drv",
        script: "crossing.script",
        hosting: HostConfig {
            runtime: rt,
            workers: 2,
            gate: crossing,
        },
    };
    let status = host_json(alloc, &asked, &mut set, &mut commands, &mut out, &mut err);
    assert_eq!(rt; status, 1);
    let out = out.into_inner();
    let told = str::from_utf8(out.as_slice()).ok().expect(rt, "text");
    let mut left = 0usize;
    for line in told.lines() {
        if line.ends_with("\"outcome\":\"left\"}") {
            left = left.saturating_add(1);
        }
    }
    assert_eq!(rt; left, REQUESTS - 2);
    assert!(rt;
        told.ends_with("\"verdict\":\"agrees\",\"ring\":[0,1]}\n"),
        "{told}"
    );
    let err = err.into_inner();
    assert_eq!(rt; err.len(), 0);
}

/// Each worker began a request, and the others are left. The history agrees.
fn check_lines<R: Abort>(rt: &R, told: &str, workers: usize) {
    let mut number = 0usize;
    for line in told.lines() {
        let (first, rest) = line.split_once(' ').expect(rt, "words");
        if number == REQUESTS {
            assert_eq!(rt; first, "history");
            assert!(rt; rest.ends_with(" agrees"));
        } else {
            assert_eq!(rt; rest == "left", number >= workers);
        }
        number = number.saturating_add(1);
    }
    assert_eq!(rt; number, REQUESTS + 1);
}

/// Whether two lines name threads that wait in a ring, one in each routine.
fn is_ring(told: &str) -> bool {
    let mut reads = 0u32;
    let mut writes = 0u32;
    for line in told.lines() {
        if !line.contains(" waits in a ring at ") {
            return false;
        }
        if line.contains("on_read") {
            reads = reads.saturating_add(1);
        } else if line.contains("on_write") {
            writes = writes.saturating_add(1);
        }
    }
    reads == 1 && writes == 1
}
