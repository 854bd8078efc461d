//! Each beginning of a driver text, of an image and of a schedule is answered: by a fault that has
//! a name, or as what it says. The digests are those of what an independent program answers.

use crate::case::answer_of;
use answer::check::check;
use drvhost_devices::verification::Verification;
use md5::{Digest, Md5};
use std::alloc::{AllocError, Global};
use std::test::Fail;
use tests_vectors::QUEUED;

/// A DPC routine takes a packet off the queue while a cancel is on its way to it.
const TAKEN: &str =
    "threads 3\nissue 0 0 READ 5\nstep 0 7\ninterrupt 0\ndpc 1 0\ncancel 2 0 0\nstep 2 2\n\
     step 1 3\nstep 2\nstep 1 4\n";

/// The digests of the exit status, the lines and what is told, of each beginning.
const VERDICTS: [u8; 16] = [
    0x9a, 0x0b, 0x49, 0x8a, 0x24, 0x42, 0x34, 0x2c, 0x52, 0x08, 0xed, 0x39, 0x3a, 0x14, 0xcc, 0x66,
];

const RUNS: [u8; 16] = [
    0xa2, 0xa8, 0xd3, 0x39, 0x52, 0x8d, 0xee, 0x01, 0x2a, 0x3e, 0x6f, 0x5d, 0x98, 0x7a, 0xbf, 0x2f,
];

/// Adds what a verdict on a text ends with and writes.
fn add_verdict(alloc: Global, text: &[u8], answers: &mut Vec<u8>) -> Result<(), AllocError> {
    let told = check(alloc, text)?;
    answers.push(told.status())?;
    answers.extend_from_slice(told.output())?;
    answers.extend_from_slice(told.told())
}

/// The same for the trace of a schedule.
fn add_run(
    alloc: Global,
    schedule: &[u8],
    verification: Verification,
    answers: &mut Vec<u8>,
) -> Result<(), AllocError> {
    let answer = answer_of(alloc, QUEUED, schedule, verification);
    answers.push(answer.status)?;
    answers.extend_from_slice(answer.lines.as_slice())?;
    answers.extend_from_slice(answer.told.as_slice())
}

#[test]
fn beginnings_of_a_text(rt: HostRuntime) -> Result<(), Fail> {
    let alloc = rt.alloc();
    let text = QUEUED;
    let mut answers = Vec::new(alloc);
    for length in 0..=text.len() {
        add_verdict(alloc, &text[..length], &mut answers)?;
    }
    assert!(rt; Md5::digest(answers.as_slice()).as_slice() == VERDICTS.as_slice());
    Ok(())
}

#[test]
fn beginnings_of_a_schedule(rt: HostRuntime) -> Result<(), Fail> {
    let alloc = rt.alloc();
    let schedule = TAKEN.as_bytes();
    for verification in [Verification::Required, Verification::Skipped] {
        let mut answers = Vec::new(alloc);
        for length in 0..=schedule.len() {
            add_run(alloc, &schedule[..length], verification, &mut answers)?;
        }
        assert!(rt; Md5::digest(answers.as_slice()).as_slice() == RUNS.as_slice());
    }
    Ok(())
}
