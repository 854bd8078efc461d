//! The program's answers in memory, and in a buffer, as the library for C has them.

use answer_mends::mend::MendOptions;
use drvhost_devices::extent::Extent;
use drvhost_devices::told::Told;
use drvhost_devices::verification::Verification;
use hunt_facts::bounds::{Bounds, Goal};
use hunt_facts::reach::Reach;
use model::abs::Rule;
use model::memory::OutOfMemory;
use pafteis_parts::answers::{
    Run, check, explain, explain_rule, hunt, list, mend, rewrite, run_as,
};
use pafteis_parts::delivery::deliver;

/// A driver that completes each read at once, and a device of it.
const ECHO: &[u8] =
    b"driver echo\ndispatch READ on_read\nroutine on_read dispatch\ncomplete r0 SUCCESS\n\
      ret SUCCESS\nendr\nendd\ndevice disk echo 1\n";

/// One that completes it twice.
const TWICE: &[u8] =
    b"driver echo\ndispatch READ on_read\nroutine on_read dispatch\ncomplete r0 SUCCESS\n\
      complete r0 SUCCESS\nret SUCCESS\nendr\nendd\ndevice disk echo 1\n";

const REFUSED: &[u8] = b"refused V5 DoubleCompletion driver 0 routine 0 at 1\n";

/// A driver with two routines, of which each is at fault.
const FAULTS: &[u8] = b"driver d\n\
      dispatch READ f\n\
      routine f dispatch\n\
      ret SUCCESS\n\
      endr\n\
      routine g dpc\n\
      relc\n\
      ret void\n\
      endr\n\
      endd\n\
      device v d 1\n";

/// What is told of the first of them.
const FIRST_TOLD: &[u8] = b"refused V13 Dropped driver 0 routine 0 at 0\n\
      \n\
      in driver d, routine f (dispatch), position 0, line 4:\n\
      \x20   2  dispatch READ f\n\
      \x20   3  routine f dispatch\n\
      \x20 > 4  ret SUCCESS\n\
      \x20   5  endr\n\
      \x20   6  routine g dpc\n\
      a path there:\n\
      \x20    at 0, line 4: ret SUCCESS\n\
      what is known where it arrives:\n\
      \x20 r0: the packet as it was handed in\n\
      \x20 owed: the packet that was handed in, with which nothing was done\n\
      why: the routine returns while r0 still has a packet, which would be lost\n\
      see: the Driver Kit on dispatch routines\n\
      mend it: insert \"complete r0 SUCCESS\" before line 4: the packet isn't lost\n";

/// What is told of the other one, behind that.
const OTHER_TOLD: &[u8] = b"\n\
      refused V7 CancelSpinLock driver 0 routine 1 at 0\n\
      \n\
      in driver d, routine g (dpc), position 0, line 7:\n\
      \x20   5  endr\n\
      \x20   6  routine g dpc\n\
      \x20 > 7  relc\n\
      \x20   8  ret void\n\
      \x20   9  endr\n\
      a path there:\n\
      \x20    at 0, line 7: relc\n\
      what is known where it arrives:\n\
      \x20 nothing: each register is blank, and no lock is held\n\
      the system cancel spin lock wasn't acquired on this path\n\
      why: the lock isn't held where it is released\n\
      see: Static Driver Verifier, SpinLock and CancelSpinLock; bug checks 0x0F and 0x10\n\
      mend it: take out line 7 \"relc\": the system cancel spin lock is taken once, and given back \
      on every path\n";

const ONE_READ: &[u8] = b"threads 1\nissue 0 0 READ 7\nstep 0 3\n";

/// The exit status and all bytes of an answer.
fn is_told(answer: Result<Told, OutOfMemory>, status: u8, output: &[u8], errors: &[u8]) -> bool {
    match answer {
        Ok(told) => told.status() == status && told.output() == output && told.told() == errors,
        Err(_refused) => false,
    }
}

/// Whether an answer of this exit status begins so.
fn begins(answer: Result<Told, OutOfMemory>, status: u8, output: &[u8]) -> bool {
    match answer {
        Ok(told) => told.status() == status && told.output().starts_with(output),
        Err(_refused) => false,
    }
}

#[test]
fn verdicts_in_memory(rt: HostRuntime) {
    let alloc = rt.alloc();
    let accepted = b"accepted\ndriver 0 routine 0 dispatch certificate 2\n";
    assert!(rt; is_told(check(alloc, ECHO), 0, accepted, b""));
    assert!(rt; is_told(check(alloc, TWICE), 1, REFUSED, b""));
    let faulty = b"text fault 6 Unclosed line 2\n";
    assert!(rt; is_told(check(alloc, b"driver d\n"), 2, b"", faulty));
}

#[test]
fn traces_in_memory(rt: HostRuntime) {
    let alloc = rt.alloc();
    let run = b"0 started 0\n1 stepped\n2 topped 0 0x00000000 0\n3 finished\n";
    let answer = run_as(alloc, ECHO, ONE_READ, Run::Trace(Verification::Required));
    assert!(rt; is_told(answer, 0, run, b""));
    let answer = run_as(alloc, TWICE, ONE_READ, Run::Trace(Verification::Required));
    assert!(rt; is_told(answer, 1, REFUSED, b""));
    let bug = b"0 started 0\n1 stepped\n2 topped 0 0x00000000 0\n3 bug 0x44 packet 0\n";
    let answer = run_as(alloc, TWICE, ONE_READ, Run::Trace(Verification::Skipped));
    assert!(rt; is_told(answer, 1, bug, b""));
}

#[test]
fn listings_in_memory(rt: HostRuntime) {
    let alloc = rt.alloc();
    let listed = b"driver d0\ndispatch READ f0\nroutine f0 dispatch\ncomplete r0 SUCCESS\n\
                   ret SUCCESS\nendr\nendd\ndevice v0 d0 1\n";
    assert!(rt; is_told(list(alloc, ECHO), 0, listed, b""));
    let image = rewrite(alloc, ECHO).ok().expect(&rt, "an image");
    assert!(rt; is_told(list(alloc, image.output()), 0, listed, b""));
}

#[test]
fn runs_and_mends_in_memory(rt: HostRuntime) {
    let alloc = rt.alloc();
    let reach = Reach::of(Bounds {
        threads: 1,
        packets: 1,
        worlds: 1_000,
        events: None,
        argument: None,
        goal: Goal::Amiss,
    });
    assert!(rt; begins(hunt(alloc, reach, ECHO), 0, b"none: "));
    assert!(rt;
        begins(
            hunt(alloc, reach, TWICE),
            1,
            b"; bug 0x44 packet 0\nthreads 1\n"
        )
    );
    let asked = MendOptions { tries: 100 };
    assert!(rt;
        is_told(
            mend(alloc, asked, ECHO),
            0,
            b"accepted: nothing to mend\n",
            b""
        )
    );
    assert!(rt; begins(mend(alloc, asked, TWICE), 0, REFUSED));
}

#[test]
fn words_in_memory(rt: HostRuntime) {
    let alloc = rt.alloc();
    assert!(rt; begins(explain(alloc, Extent::First, TWICE), 1, REFUSED));
    assert!(rt; begins(explain(alloc, Extent::Each, TWICE), 1, REFUSED));
    assert!(rt; begins(explain_rule(alloc, Rule::Guard), 0, b"V11 Guard"));
}

#[test]
fn words_on_two_faults_in_memory(rt: HostRuntime) {
    let alloc = rt.alloc();
    assert!(rt; is_told(explain(alloc, Extent::First, FAULTS), 1, FIRST_TOLD, b""));
    let each = explain(alloc, Extent::Each, FAULTS)
        .ok()
        .expect(&rt, "words");
    assert_eq!(rt; each.status(), 1);
    assert!(rt; each.output().strip_prefix(FIRST_TOLD) == Some(OTHER_TOLD));
}

#[test]
fn answers_in_buffers(rt: HostRuntime) {
    let alloc = rt.alloc();
    let mut buffer = [7u8; 31];
    let short = deliver(check(alloc, b"driver d\n"), &mut buffer[..28]);
    assert_eq!(rt; short.needed, 29);
    assert!(rt; buffer == [7u8; 31]);
    let whole = deliver(check(alloc, b"driver d\n"), &mut buffer);
    assert_eq!(rt; whole.status, 2);
    assert!(rt; buffer.as_slice() == b"text fault 6 Unclosed line 2\n\x07\x07".as_slice());
}
