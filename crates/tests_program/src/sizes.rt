//! As many live packets and entries of a list as there may be, and one more. The schedules are
//! computed; the digests are those of what an independent program answers.

use crate::case::traced;
use drvhost_devices::verification::Verification;
use md5::{Digest, Md5};
use std::alloc::{AllocError, Global};
use std::test::Fail;
use tests_vectors::QUEUED;

/// So many packets are queued, each by seven steps, and then one issue more: the schedule, and what
/// its trace writes.
fn filled(alloc: Global, packets: u64) -> Result<(String, String), AllocError> {
    let mut schedule = String::from_str(alloc, "threads 1\n")?;
    let mut out = String::new(alloc);
    for packet in 0..packets {
        schedule.push_str("issue 0 0 READ 0\nstep 0 7\n")?;
        let first = packet.saturating_mul(8);
        let started = format!(in alloc; "{first} started {packet}\n")?;
        out.push_str(started.as_str())?;
        for step in 1..7 {
            let event = first.saturating_add(step);
            let stepped = format!(in alloc; "{event} stepped\n")?;
            out.push_str(stepped.as_str())?;
        }
        let last = first.saturating_add(7);
        let finished = format!(in alloc; "{last} finished\n")?;
        out.push_str(finished.as_str())?;
    }
    schedule.push_str("issue 0 0 READ 0\n")?;
    let end = packets.saturating_mul(8);
    let refused = format!(in alloc; "{end} refused\n")?;
    out.push_str(refused.as_str())?;
    Ok((schedule, out))
}

/// There are 4,096 live packets at most.
#[test]
fn the_most_live_packets(rt: HostRuntime) -> Result<(), Fail> {
    let alloc = rt.alloc();
    let (schedule, lines) = filled(alloc, 4_096)?;
    for verification in [Verification::Required, Verification::Skipped] {
        let traced = traced(alloc, QUEUED, schedule.as_bytes(), verification);
        assert!(rt; traced.is_some_and(|traced| traced.as_slice() == lines.as_bytes()));
    }
    Ok(())
}

/// A routine that fills a list, so many steps that the last two are refused, and the digest of the
/// trace.
struct Full {
    list: &'static str,
    code: &'static str,
    steps: u64,
    trace: [u8; 16],
}

/// A list has room for 4,096 entries.
static FULL: [Full; 4] = [
    Full {
        list: "a queue",
        code: "loop 17\nloop 241\ninsert r0 q\nend\nend\nret SUCCESS\n",
        steps: 8228,
        trace: [
            0xe3, 0xb4, 0x5b, 0x01, 0x06, 0xeb, 0xbd, 0x87, 0xba, 0xba, 0xf0, 0x92, 0xc7, 0xe3,
            0xe9, 0xc7,
        ],
    },
    Full {
        list: "the device queue",
        code: "loop 17\nloop 241\nstart r0\nend\nend\nstart r0\nret SUCCESS\n",
        steps: 8231,
        trace: [
            0x33, 0x81, 0x63, 0xa5, 0x6d, 0xab, 0x9f, 0x90, 0xae, 0xed, 0xf1, 0x64, 0x80, 0xb1,
            0x28, 0x17,
        ],
    },
    Full {
        list: "the start list",
        code: "loop 17\nloop 241\nstart r0\nnext\nend\nend\nret SUCCESS\n",
        steps: 12324,
        trace: [
            0x34, 0xaa, 0xbb, 0x52, 0x3a, 0x9a, 0x10, 0x05, 0xea, 0xd9, 0xe9, 0xa8, 0xcd, 0x97,
            0x14, 0xe2,
        ],
    },
    Full {
        list: "the start list, from the device queue",
        code: "loop 65\nloop 63\nstart r0\nnext\nend\nend\nstart r0\nstart r0\nnext\nret SUCCESS\n",
        steps: 12420,
        trace: [
            0x81, 0xe0, 0x0b, 0x8c, 0xda, 0x8c, 0x8c, 0xb5, 0x03, 0x59, 0x77, 0xbc, 0x38, 0x1e,
            0x33, 0xd3,
        ],
    },
];

/// Whether the unchecked trace of the routine has that digest.
fn fills(alloc: Global, full: &Full) -> Result<bool, AllocError> {
    let (code, steps) = (full.code, full.steps);
    let set = format!(in alloc;
        "driver d\nqueue q l0\ndispatch READ f\nroutine f dispatch\n{code}endr\nendd\n\
         device v d 1\n"
    )?;
    let schedule = format!(in alloc; "threads 1\nissue 0 0 READ 0\nstep 0 {steps}\n")?;
    let skipped = Verification::Skipped;
    Ok(
        match traced(alloc, set.as_bytes(), schedule.as_bytes(), skipped) {
            Some(traced) => Md5::digest(traced.as_slice()).as_slice() == full.trace.as_slice(),
            None => false,
        },
    )
}

#[test]
fn full_lists(rt: HostRuntime) -> Result<(), Fail> {
    for full in FULL.iter() {
        let list = full.list;
        assert!(rt; fills(rt.alloc(), full)?, "{list}");
    }
    Ok(())
}
