//! How many commands a script may have.

use answer_runs::host::{HostConfig, host};
use drvhost_devices::device::{Reader, Writer};
use std::alloc::{AllocError, Global};
use std::sync::Wait;
use std::thread::Threads;
use workers::Open;

const SET: &[u8] =
    b"driver d\ndispatch READ f\nroutine f dispatch\ncomplete r0 SUCCESS\nret SUCCESS\nendr\nendd\n\
      device v d 1\n";

/// What is told of a script that one worker serves, where nothing goes out and the status is 2.
fn told_of<R: Threads + Wait + Sync>(rt: &R, alloc: Global, script: &[u8]) -> Vec<u8> {
    let mut set = Reader::new(Some(SET));
    let mut commands = Reader::new(Some(script));
    let mut out = Writer::new(Vec::<u8>::new(alloc));
    let mut err = Writer::new(Vec::<u8>::new(alloc));
    let hosting = HostConfig {
        runtime: rt,
        workers: 1,
        gate: &Open,
    };
    let status = host(alloc, &mut set, &mut commands, &hosting, &mut out, &mut err);
    if status == 2 && out.into_inner().is_empty() {
        err.into_inner()
    } else {
        Vec::new(alloc)
    }
}

/// So many lines of an interrupt.
fn interrupts(alloc: Global, count: usize) -> Result<Vec<u8>, AllocError> {
    let mut script = Vec::new(alloc);
    for _ in 0..count {
        script.extend_from_slice(b"interrupt 0\n")?;
    }
    Ok(script)
}

/// A command more than a script may have.
#[test]
fn too_many_commands(rt: HostRuntime) {
    let alloc = rt.alloc();
    let script = interrupts(alloc, 65_537).ok().expect(&rt, "memory");
    let told = told_of(&rt, alloc, script.as_slice());
    assert!(rt; told.as_slice() == b"script fault 4 TooLong line 65537\n".as_slice());
}
