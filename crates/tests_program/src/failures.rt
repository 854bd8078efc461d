//! Verdicts, explanations, listings, images and runs of texts and of images, and scripts that one
//! worker serves, over devices that move few bytes a call, or fail at each call in turn.

ghost use Rattle.std.specs.Prelude.{◌≡◌};
ghost use Rattle.drvhost_devices.specs.Ready.{CanAnswer};

use crate::devices::{Narrow, Slow, have_taken};
use answer::as_text::Text;
use answer::check::Judgement;
use answer::deliver::{deliver, write_answer};
use answer::form::Form;
use answer::judged::{Judged, Unjudged};
use answer::list::Listing;
use answer::run::{ToRun, deliver_run};
use answer_explain::explaining::ExplainedText;
use answer_explain::rewriting::rewrite;
use answer_explain::version::version;
use answer_runs::host::{HostConfig, host};
use answer_runs::trace::trace;
use answer_views::draw::Drawn;
use answer_views::tell::InWords;
use drvhost_devices::device::{Reader, Sink, Source};
use drvhost_devices::extent::Extent;
use drvhost_devices::figure::Figure;
use drvhost_devices::manner::{Detail, Manner, Strictness};
use drvhost_devices::verification::Verification;
use std::alloc::Global;
use std::sync::Wait;
use std::thread::Threads;
use tests_vectors::{EMPTY, OLD_ONE_READ, ONE_READ, ONE_READ_TEXT, QUEUED};
use workers::Open;

/// The listing of the set of one read.
const LISTED: &[u8] =
    b"driver d0\ndispatch READ f0\nroutine f0 dispatch\ncomplete r0 SUCCESS\nret SUCCESS\nendr\n\
      endd\ndevice v0 d0 1\n";

const VERDICT: &[u8] = b"accepted\ndriver 0 routine 0 dispatch certificate 2\n";

/// What is said of `ONE_READ_TEXT`, whose lines are those of a text that a person wrote.
const ROLL_OF_TEXT: &[u8] = b"accepted\ndriver 0 routine 0 dispatch certificate 2\n\
      driver 0 routine 0: driver d, routine f (dispatch)\n\
      No threads ever wait for each other in a ring, and every routine ends.\n";

/// The same of `ONE_READ`, which has no names: those of its listing.
const ROLL_OF_IMAGE: &[u8] = b"accepted\ndriver 0 routine 0 dispatch certificate 2\n\
      driver 0 routine 0: driver d0, routine f0 (dispatch)\n\
      No threads ever wait for each other in a ring, and every routine ends.\n";

/// A set whose last instruction is no return.
const ENDLESS: &[u8] = b"driver d\ndispatch READ f\nroutine f dispatch\ncomplete r0 SUCCESS\n\
      clear r1\nendr\nendd\ndevice v d 1\n";

const ENDLESS_EXPLAINED: &[u8] = b"refused V1 Malformed driver 0 routine 0 at 1\n\n\
      in driver d, routine f (dispatch), position 1, line 5:\n    3  routine f dispatch\n    \
      4  complete r0 SUCCESS\n  > 5  clear r1\n    6  endr\n    7  endd\n\
      why: the routine's last instruction isn't a return\n\
      see: this bytecode's form, which makes a certificate possible\n\
      mend it: end the routine with a `ret`\n";

pub(crate) const SCHEDULE: &[u8] = b"threads 1\nissue 0 0 READ 7\nstep 0 4\n";

pub(crate) const LINES: &[u8] =
    b"0 started 0\n1 stepped\n2 topped 0 0x00000000 0\n3 finished\n4 idle\n";

/// What `tell` writes in quiet of the run of `ONE_READ`.
const TOLD: &[u8] = b"\
      0 started 0               0  -                                           \
      packet 0: a READ with 7 is issued to v0\n\
      2 topped 0 0x00000000 0   0  IoCompleteRequest                           \
      packet 0: tops out with STATUS_SUCCESS, information 0\n\
      3 finished                0  f0 5: ret SUCCESS                           \
      STATUS_SUCCESS\n\
      \n\
      audit\n\
      packet 0 topped out with STATUS_SUCCESS, information 0\n\
      nothing is amiss\n";

const SCRIPT: &[u8] = b"request 0 READ 0\ninterrupt 0\n";

const SERVED: &[u8] = b"0 topped 0 0x00000000 0\n1 stepped\nhistory 17 agrees\n";

/// What is asked of a set.
#[derive(Clone, Copy)]
enum Job {
    Check,
    Explain(Extent),
    List,
    Rewrite,
    /// A schedule is run.
    Trace(&'static [u8], Verification),
    /// And told in words.
    Tell(&'static [u8], Verification, Detail),
    /// Or drawn.
    Draw(&'static [u8], Verification),
    /// A script is served by one worker.
    Host(&'static [u8]),
}

/// A set, and what comes of it where no device fails.
struct Case {
    set: &'static [u8],
    job: Job,
    status: u8,
    lines: &'static [u8],
    /// What the error writer is given.
    told: &'static [u8],
}

/// What is answered: the exit status, what goes out, and what the error writer is given.
#[derive(Clone, Copy)]
struct Answered<'a> {
    status: u8,
    lines: &'a [u8],
    told: &'a [u8],
}

/// What is answered where a read fails.
const UNREAD: Answered<'static> = Answered {
    status: 2,
    lines: b"",
    told: b"read failed\n",
};

/// How the devices of a run behave.
#[derive(Clone, Copy)]
struct Devices {
    /// Bytes a call, at most.
    step: usize,
    /// The calls of each before the one that fails.
    set: Option<usize>,
    /// The schedule, or the script.
    orders: Option<usize>,
    out: Option<usize>,
    err: Option<usize>,
}

/// Devices that move one byte a call and never fail.
const WHOLE: Devices = Devices {
    step: 1,
    set: None,
    orders: None,
    out: None,
    err: None,
};

/// Verdicts, explanations, listings and images.
static CASES: [Case; 16] = [
    Case {
        set: ONE_READ_TEXT,
        job: Job::Check,
        status: 0,
        lines: VERDICT,
        told: b"",
    },
    Case {
        set: &ONE_READ,
        job: Job::Check,
        status: 0,
        lines: VERDICT,
        told: b"",
    },
    Case {
        set: &EMPTY,
        job: Job::Check,
        status: 1,
        lines: b"refused V1 Malformed driver 0 routine 0 at 0\n",
        told: b"",
    },
    Case {
        set: b"driver d\n",
        job: Job::Check,
        status: 2,
        lines: b"",
        told: b"text fault 6 Unclosed line 2\n",
    },
    Case {
        set: b"DVB",
        job: Job::Check,
        status: 2,
        lines: b"",
        told: b"image fault 2 Truncated\n",
    },
    Case {
        set: ONE_READ_TEXT,
        job: Job::Explain(Extent::First),
        status: 0,
        lines: ROLL_OF_TEXT,
        told: b"",
    },
    Case {
        set: &ONE_READ,
        job: Job::Explain(Extent::Each),
        status: 0,
        lines: ROLL_OF_IMAGE,
        told: b"",
    },
    Case {
        set: ENDLESS,
        job: Job::Explain(Extent::Each),
        status: 1,
        lines: ENDLESS_EXPLAINED,
        told: b"",
    },
    Case {
        set: b"driver d\n",
        job: Job::Explain(Extent::Each),
        status: 2,
        lines: b"",
        told: b"text fault 6 Unclosed line 2\n\nin driver d, line 2:\n    1  driver d\n\
              at fault: the text ends inside the driver\nwhat may stand there: `endd`\n",
    },
    Case {
        set: ONE_READ_TEXT,
        job: Job::List,
        status: 0,
        lines: LISTED,
        told: b"",
    },
    Case {
        set: &ONE_READ,
        job: Job::List,
        status: 0,
        lines: LISTED,
        told: b"",
    },
    Case {
        set: b"DVB",
        job: Job::List,
        status: 2,
        lines: b"",
        told: b"image fault 2 Truncated\n",
    },
    Case {
        set: ONE_READ_TEXT,
        job: Job::Rewrite,
        status: 0,
        lines: &ONE_READ,
        told: b"",
    },
    Case {
        set: &OLD_ONE_READ,
        job: Job::Rewrite,
        status: 0,
        lines: &ONE_READ,
        told: b"",
    },
    Case {
        set: b"DVB1",
        job: Job::Rewrite,
        status: 2,
        lines: b"",
        told: b"image fault 2 Truncated\n",
    },
    Case {
        set: &EMPTY,
        job: Job::Draw(b"", Verification::Required),
        status: 1,
        lines: b"refused V1 Malformed driver 0 routine 0 at 0\n",
        told: b"",
    },
];

/// A run that is drawn.
static DRAWN: Case = Case {
    set: ONE_READ_TEXT,
    job: Job::Draw(SCHEDULE, Verification::Required),
    status: 0,
    lines: b"",
    told: b"",
};

/// What is told of a schedule of 65 threads where its run is shown.
const SCHEDULE_EXPLAINED: &[u8] = b"schedule fault 3 OutOfRange line 1\n\nin line 1:\n\
      \x20 > 1  threads 65\nat fault: `65`, whose number is out of range\n\
      what may stand there: how many threads there are, 1 to 64\n";

/// Runs of schedules, and of scripts.
static RUNS: [Case; 10] = [
    Case {
        set: ONE_READ_TEXT,
        job: Job::Trace(SCHEDULE, Verification::Required),
        status: 0,
        lines: LINES,
        told: b"",
    },
    Case {
        set: &ONE_READ,
        job: Job::Trace(SCHEDULE, Verification::Required),
        status: 0,
        lines: LINES,
        told: b"",
    },
    Case {
        set: &ONE_READ,
        job: Job::Trace(SCHEDULE, Verification::Skipped),
        status: 0,
        lines: LINES,
        told: b"",
    },
    Case {
        set: &EMPTY,
        job: Job::Trace(b"threads 64\nissue 63 0 WRITE 7\n", Verification::Skipped),
        status: 0,
        lines: b"0 refused\n",
        told: b"",
    },
    Case {
        set: &ONE_READ,
        job: Job::Trace(b"threads 65\n", Verification::Required),
        status: 2,
        lines: b"",
        told: b"schedule fault 3 OutOfRange line 1\n",
    },
    Case {
        set: &ONE_READ,
        job: Job::Tell(SCHEDULE, Verification::Required, Detail::Quiet),
        status: 0,
        lines: TOLD,
        told: b"",
    },
    Case {
        set: ONE_READ_TEXT,
        job: Job::Tell(b"threads 65\n", Verification::Skipped, Detail::Every),
        status: 2,
        lines: b"",
        told: SCHEDULE_EXPLAINED,
    },
    Case {
        set: ONE_READ_TEXT,
        job: Job::Draw(b"threads 65\n", Verification::Skipped),
        status: 2,
        lines: b"",
        told: SCHEDULE_EXPLAINED,
    },
    Case {
        set: QUEUED,
        job: Job::Host(SCRIPT),
        status: 0,
        lines: SERVED,
        told: b"",
    },
    Case {
        set: &ONE_READ,
        job: Job::Host(b"interrupt 0\ncancel 0 0\n"),
        status: 2,
        lines: b"",
        told: b"script fault 3 OutOfRange line 2\n",
    },
];

/// The set of a case, and where what is answered goes.
#[derive(Drop)]
struct Streams<'a> {
    set: Slow<'a>,
    out: Narrow,
    err: Narrow,
}

/// The exit status of the verdict on the set of a source, in a form.
fn judge<F: Form + Drop, S: Source, O: Sink, E: Sink>(
    form: F,
    alloc: Global,
    set: &mut S,
    out: &mut O,
    err: &mut E,
) -> u8
    requires { CanAnswer O.Sink E.Sink (S.failures set.old) out.old err.old }
{
    let job = Judgement;
    deliver(&Judged { job, form }, alloc, "", set, out, err)
}

/// The exit status of a case with such devices.
fn answer<R: Threads + Wait + Sync>(
    rt: &R,
    alloc: Global,
    case: &Case,
    devices: &Devices,
    streams: &mut Streams<'_>,
) -> u8
    requires set { ⟦<Slow<'static> as Source>⟧.failures streams.old.set ≡ 0 }
    requires out { ⟦<Narrow as Sink>⟧.failures streams.old.out ≡ 0 }
    requires err { ⟦<Narrow as Sink>⟧.failures streams.old.err ≡ 0 }
{
    let Streams { set, out, err } = streams;
    match case.job {
        Job::Check => judge(Text, alloc, set, out, err),
        Job::Explain(extent) => judge(ExplainedText { extent }, alloc, set, out, err),
        Job::List => {
            let listed = Unjudged {
                job: Listing,
                form: Text,
            };
            deliver(&listed, alloc, "", set, out, err)
        }
        Job::Rewrite => rewrite(alloc, set, out, err),
        Job::Trace(schedule, verification) => {
            let mut schedule = Slow::new(schedule, devices.step, devices.orders);
            trace(alloc, set, &mut schedule, verification, out, err)
        }
        Job::Tell(schedule, verification, detail) => {
            let mut schedule = Slow::new(schedule, devices.step, devices.orders);
            let told = told_by(verification, detail);
            deliver_run(&told, alloc, set, &mut schedule, out, err)
        }
        Job::Draw(schedule, verification) => {
            let mut schedule = Slow::new(schedule, devices.step, devices.orders);
            let drawn = picture_by(verification);
            deliver_run(&drawn, alloc, set, &mut schedule, out, err)
        }
        Job::Host(script) => {
            let mut script = Slow::new(script, devices.step, devices.orders);
            let hosting = HostConfig {
                runtime: rt,
                workers: 1,
                gate: &Open,
            };
            host(alloc, set, &mut script, &hosting, out, err)
        }
    }
}

/// A run that is told in such detail.
fn told_by(verification: Verification, detail: Detail) -> ToRun<'static, InWords, Text> {
    let manner = Manner {
        detail,
        strictness: Strictness::Lenient,
    };
    ToRun {
        job: InWords { manner },
        form: Text,
        verification,
        set: "",
        input: "",
    }
}

/// Whether a case with such devices ends and writes so, and tells so.
fn is_answered<R: Threads + Wait + Sync>(
    rt: &R,
    alloc: Global,
    case: &Case,
    devices: &Devices,
    answered: &Answered<'_>,
) -> bool {
    let mut streams = Streams {
        set: Slow::new(case.set, devices.step, devices.set),
        out: Narrow::new(alloc, devices.step, devices.out),
        err: Narrow::new(alloc, devices.step, devices.err),
    };
    answer(rt, alloc, case, devices, &mut streams) == answered.status
        && streams.set.failures() == devices.set.is_some() as u64
        && streams.out.failures() == devices.out.is_some() as u64
        && streams.err.failures() == devices.err.is_some() as u64
        && streams.out.written.as_slice() == answered.lines
        && streams.err.written.as_slice() == answered.told
}

/// What is answered of a case where no device fails.
fn answered_by(case: &Case) -> Answered<'static> {
    Answered {
        status: case.status,
        lines: case.lines,
        told: case.told,
    }
}

/// What is answered where a write fails, behind such lines.
fn unwritten(lines: &[u8]) -> Answered<'_> {
    Answered {
        status: 2,
        lines,
        told: b"write failed\n",
    }
}

/// Whether a case is answered so by devices that move few bytes a call.
fn is_answered_slowly<R: Threads + Wait + Sync>(rt: &R, alloc: Global, case: &Case) -> bool {
    for step in [1, 7, 100] {
        let devices = Devices { step, ..WHOLE };
        if !is_answered(rt, alloc, case, &devices, &answered_by(case)) {
            return false;
        }
    }
    true
}

#[test]
fn few_bytes_a_call(rt: HostRuntime) {
    for case in CASES.iter() {
        assert!(rt; is_answered_slowly(&rt, rt.alloc(), case));
    }
    for case in RUNS.iter() {
        assert!(rt; is_answered_slowly(&rt, rt.alloc(), case));
    }
}

/// The calls of which each fails in turn.
#[derive(Clone, Copy)]
enum Failing {
    /// Those that read the set, also the one that finds the end.
    Set,
    /// Those that read the schedule, or the script.
    Orders,
    /// Those that write the lines.
    Lines,
    /// Those that tell what is told.
    Told,
    /// Those that tell that the set can't be read.
    Unread,
    /// Those that tell that the lines can't be written.
    Unwritten,
}

/// How many such calls there are of a case.
fn calls_of(case: &Case, failing: Failing) -> usize {
    match failing {
        Failing::Set => case.set.len().saturating_add(1),
        Failing::Orders => calls_of_orders(case),
        Failing::Lines => case.lines.len(),
        Failing::Told => case.told.len(),
        Failing::Unread => UNREAD.told.len(),
        Failing::Unwritten if case.lines.is_empty() => 0,
        Failing::Unwritten => unwritten(b"").told.len(),
    }
}

/// How many calls read the orders of a case.
fn calls_of_orders(case: &Case) -> usize {
    match case.job {
        Job::Trace(orders, _)
        | Job::Tell(orders, _, _)
        | Job::Draw(orders, _)
        | Job::Host(orders) => orders.len().saturating_add(1),
        Job::Check | Job::Explain(_) | Job::List | Job::Rewrite => 0,
    }
}

/// The devices of which such a call fails, after so many that don't.
fn devices_of(failing: Failing, calls: usize) -> Devices {
    let mut devices = WHOLE;
    match failing {
        Failing::Set => devices.set = Some(calls),
        Failing::Orders => devices.orders = Some(calls),
        Failing::Lines => devices.out = Some(calls),
        Failing::Told => devices.err = Some(calls),
        Failing::Unread => {
            devices.set = Some(0);
            devices.err = Some(calls);
        }
        Failing::Unwritten => {
            devices.out = Some(0);
            devices.err = Some(calls);
        }
    }
    devices
}

/// What is answered there: where a read of a case fails nothing is written, where a write fails a
/// beginning of its lines, and where nobody is told the status stays.
fn answered_where(case: &Case, failing: Failing, calls: usize) -> Answered<'static> {
    match failing {
        Failing::Set | Failing::Orders => UNREAD,
        Failing::Lines => unwritten(beginning(case.lines, calls)),
        Failing::Told => told_to(answered_by(case), calls),
        Failing::Unread => told_to(UNREAD, calls),
        Failing::Unwritten => told_to(unwritten(b""), calls),
    }
}

/// So many bytes of these, or all.
fn beginning(bytes: &[u8], length: usize) -> &[u8] {
    bytes.get(..length).unwrap_or(bytes)
}

/// The same answer, of which the error writer is given so many bytes.
fn told_to(answered: Answered<'static>, length: usize) -> Answered<'static> {
    Answered {
        told: beginning(answered.told, length),
        ..answered
    }
}

/// Whether a case is answered as it has to be, whichever of these calls fails.
fn answers_each_failure<R: Threads + Wait + Sync>(
    rt: &R,
    alloc: Global,
    case: &Case,
    failing: Failing,
) -> bool {
    for calls in 0..calls_of(case, failing) {
        let devices = devices_of(failing, calls);
        let answered = answered_where(case, failing, calls);
        if !is_answered(rt, alloc, case, &devices, &answered) {
            return false;
        }
    }
    true
}

#[test]
fn each_read_of_a_set_fails_in_turn(rt: HostRuntime) {
    for case in CASES.iter() {
        assert!(rt; answers_each_failure(&rt, rt.alloc(), case, Failing::Set));
    }
}

#[test]
fn each_read_of_the_set_of_a_run_fails_in_turn(rt: HostRuntime) {
    for case in RUNS.iter() {
        assert!(rt; answers_each_failure(&rt, rt.alloc(), case, Failing::Set));
    }
}

#[test]
fn each_read_of_orders_fails_in_turn(rt: HostRuntime) {
    for case in RUNS.iter() {
        assert!(rt; answers_each_failure(&rt, rt.alloc(), case, Failing::Orders));
    }
}

#[test]
fn each_write_fails_in_turn(rt: HostRuntime) {
    for case in CASES.iter() {
        assert!(rt; answers_each_failure(&rt, rt.alloc(), case, Failing::Lines));
    }
}

#[test]
fn each_write_of_a_run_fails_in_turn(rt: HostRuntime) {
    for case in RUNS.iter() {
        assert!(rt; answers_each_failure(&rt, rt.alloc(), case, Failing::Lines));
    }
}

/// A run that is drawn as a picture.
fn picture_by(verification: Verification) -> ToRun<'static, Drawn, Text> {
    let figure = Figure::Picture;
    ToRun {
        job: Drawn { figure },
        form: Text,
        verification,
        set: "",
        input: "",
    }
}

/// The picture of a run, as sinks take it that don't fail.
fn picture_of(alloc: Global) -> Narrow {
    let mut set = Slow::new(ONE_READ_TEXT, 1, None);
    let mut schedule = Slow::new(SCHEDULE, 1, None);
    let mut out = Narrow::new(alloc, 100, None);
    let mut err = Narrow::new(alloc, 1, None);
    let drawn = picture_by(Verification::Required);
    let _status = deliver_run(&drawn, alloc, &mut set, &mut schedule, &mut out, &mut err);
    out
}

/// Whether a write of 100 bytes of a picture that fails at any call is told, and a beginning of the
/// picture is there.
fn tells_each_failed_block<R: Threads + Wait + Sync>(
    rt: &R,
    alloc: Global,
    picture: &[u8],
) -> bool {
    let whole = Devices { step: 100, ..WHOLE };
    for calls in 0..picture.len() / 100 {
        let devices = Devices {
            out: Some(calls),
            ..whole
        };
        let written = picture.get(..calls.saturating_mul(100)).unwrap_or(picture);
        if !is_answered(rt, alloc, &DRAWN, &devices, &unwritten(written)) {
            return false;
        }
    }
    let drawn = Answered {
        status: 0,
        lines: picture,
        told: b"",
    };
    is_answered(rt, alloc, &DRAWN, &whole, &drawn)
}

/// A read or a write that fails at any call of a run that is drawn is told, and a beginning of the
/// picture is there, or nothing.
#[test]
fn each_call_for_a_picture_fails_in_turn(rt: HostRuntime) {
    let alloc = rt.alloc();
    assert!(rt; answers_each_failure(&rt, alloc, &DRAWN, Failing::Set));
    assert!(rt; answers_each_failure(&rt, alloc, &DRAWN, Failing::Orders));
    let picture = picture_of(alloc);
    let picture = picture.written.as_slice();
    assert!(rt; picture.starts_with(b"<?xml ") && picture.ends_with(b"</svg>\n"));
    assert!(rt; tells_each_failed_block(&rt, alloc, picture));
}

#[test]
fn no_one_to_tell(rt: HostRuntime) {
    for case in CASES.iter() {
        assert!(rt; answers_each_failure(&rt, rt.alloc(), case, Failing::Told));
    }
    for case in RUNS.iter() {
        assert!(rt; answers_each_failure(&rt, rt.alloc(), case, Failing::Told));
    }
}

#[test]
fn no_one_to_tell_of_a_failure(rt: HostRuntime) {
    for case in CASES.iter() {
        assert!(rt; answers_each_failure(&rt, rt.alloc(), case, Failing::Unread));
        assert!(rt; answers_each_failure(&rt, rt.alloc(), case, Failing::Unwritten));
    }
    for case in RUNS.iter() {
        assert!(rt; answers_each_failure(&rt, rt.alloc(), case, Failing::Unread));
        assert!(rt; answers_each_failure(&rt, rt.alloc(), case, Failing::Unwritten));
    }
}

/// Whether the version goes out, or so many bytes of it before a write fails.
fn is_versioned(alloc: Global, told: &[u8], calls: usize) -> bool {
    let mut out = Narrow::new(alloc, 1, Some(calls));
    let mut err = Narrow::new(alloc, 1, None);
    let status = write_answer(version(alloc), &mut out, &mut err);
    have_taken(&out, &err, status, told, calls)
}

/// The program's name and version need no file.
#[test]
fn each_write_of_the_version_fails_in_turn(rt: HostRuntime) {
    let mut whole = Narrow::new(rt.alloc(), 1, None);
    let mut err = Narrow::new(rt.alloc(), 1, None);
    assert_eq!(rt; write_answer(version(rt.alloc()), &mut whole, &mut err), 0);
    for calls in 0..=whole.written.len() {
        assert!(rt;
            is_versioned(rt.alloc(), whole.written.as_slice(), calls),
            "{calls}"
        );
    }
}

/// Whether a file that can't be opened is told, by as many bytes as go out.
fn is_unopened(alloc: Global, good: Option<usize>) -> bool {
    let mut out = Narrow::new(alloc, 1, None);
    let mut err = Narrow::new(alloc, 1, good);
    let mut set = Reader::<&[u8]>::new(None);
    let status = judge(Text, alloc, &mut set, &mut out, &mut err);
    let told = good.unwrap_or(usize::MAX).min(b"read failed\n".len());
    status == 2
        && set.failures() == 1
        && out.written.is_empty()
        && err.written.as_slice() == &b"read failed\n"[..told]
}

/// A file that can't be opened.
#[test]
fn no_file(rt: HostRuntime) {
    for good in [None, Some(0), Some(1)] {
        assert!(rt; is_unopened(rt.alloc(), good));
    }
}
