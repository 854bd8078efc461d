//! An accepted set at the limits. The digests are those of what an independent program answers.

use crate::case::traced;
use answer::check::check;
use drvhost_devices::verification::Verification;
use md5::{Digest, Md5};
use std::alloc::{AllocError, Global};
use std::test::Fail;

/// The digest of the verdict: a line, and one for each of 256 routines.
const VERDICT: [u8; 16] = [
    0x10, 0x49, 0xa1, 0xc1, 0xca, 0x57, 0x66, 0xe7, 0x13, 0x46, 0xfe, 0xe1, 0x8e, 0x43, 0xfc, 0xf1,
];

/// The digest of the trace: 65,984 lines.
const TRACE: [u8; 16] = [
    0x65, 0x19, 0x94, 0x93, 0x57, 0x5f, 0x4c, 0x0d, 0x7a, 0x43, 0x1d, 0x84, 0x8e, 0x2b, 0x6e, 0xad,
];

/// 8 drivers of 32 routines, of which the first has 1,024 instructions, and 16 devices.
fn largest_set(alloc: Global) -> Result<String, AllocError> {
    let mut text = String::from_str(alloc, "; 8 drivers of 32 routines, 16 devices\n")?;
    for driver in 0..8 {
        let opening = format!(in alloc; "driver d{driver}\ndispatch READ f0\n")?;
        text.push_str(opening.as_str())?;
        for routine in 0..32 {
            add_routine(alloc, &mut text, driver, routine)?;
        }
        text.push_str("endd\n")?;
    }
    for device in 0..16 {
        let driver = device % 8;
        let line = format!(in alloc; "device v{device} d{driver} 16\n")?;
        text.push_str(line.as_str())?;
    }
    Ok(text)
}

fn add_routine(
    alloc: Global,
    text: &mut String,
    driver: usize,
    routine: usize,
) -> Result<(), AllocError> {
    let opening = format!(in alloc; "routine f{routine} dispatch\n")?;
    text.push_str(opening.as_str())?;
    let cleared = if routine == 0 {
        1022
    } else {
        driver.saturating_add(1)
    };
    for _instruction in 0..cleared {
        text.push_str("clear r1\n")?;
    }
    text.push_str("complete r0 SUCCESS\nret SUCCESS\nendr\n")
}

/// A request on each of 64 threads, and so many steps that each comes to its end.
fn longest_schedule(alloc: Global) -> Result<String, AllocError> {
    let mut text = String::from_str(alloc, "threads 64\n")?;
    for thread in 0..64 {
        let device = thread % 16;
        let lines = format!(in alloc;
            "issue {thread} {device} READ {thread}\nstep {thread} 1030\n"
        )?;
        text.push_str(lines.as_str())?;
    }
    Ok(text)
}

#[test]
fn the_largest_set_is_accepted(rt: HostRuntime) -> Result<(), Fail> {
    let alloc = rt.alloc();
    let set = largest_set(alloc)?;
    let told = check(alloc, set.as_bytes())?;
    assert_eq!(rt; told.status(), 0);
    assert!(rt; told.told().is_empty());
    assert!(rt; Md5::digest(told.output()).as_slice() == VERDICT.as_slice());
    Ok(())
}

#[test]
fn the_largest_set_runs(rt: HostRuntime) -> Result<(), Fail> {
    let alloc = rt.alloc();
    let set = largest_set(alloc)?;
    let schedule = longest_schedule(alloc)?;
    for verification in [Verification::Required, Verification::Skipped] {
        let traced = traced(alloc, set.as_bytes(), schedule.as_bytes(), verification);
        let Some(traced) = traced else {
            return Err(Fail::from("the set runs"));
        };
        assert!(rt; Md5::digest(traced.as_slice()).as_slice() == TRACE.as_slice());
    }
    Ok(())
}
