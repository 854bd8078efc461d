//! Tests of a driver set.

ghost use Rattle.drvhost_devices.specs.Device.{Says};
ghost use Rattle.drvhost_devices.specs.Ready.{CanWrite};
ghost use Rattle.drvhost_files.specs.Kept.{OnlyReads};
ghost use Rattle.drvhost_files.specs.Ready.{CanOpenMany};
ghost use Rattle.drvhost_many.specs.All.{Counted};
ghost use Rattle.drvhost_tests.specs.Tests.{AreOfPaths, Gathers, TestsEnd};
ghost use Rattle.drvhost_tests.specs.Told.{asked_of};

use crate::set::test_set;
use cli::job::Report;
use drvhost_devices::device::Sink;
use drvhost_devices::fault::no_memory;
use drvhost_devices::told::{Told, deliver};
use drvhost_devices::verbosity::Verbosity;
use drvhost_devices::verification::Verification;
use drvhost_files::files::Files;
use drvhost_files::sought::{Search, Sought};
use drvhost_many::paths::find_all;
use std::alloc::{AllocError, Global};
use std::thread::Threads;

/// Tests of a driver set: the file of the set, the paths that stand for those of the scenarios,
/// whether the set has to be accepted, how the tests are reported, how much is told of one that
/// fails, and how many jobs share them, at most.
#[derive(Clone, Copy)]
pub struct Tests<'n> {
    pub set: &'n str,
    pub scenarios: &'n [&'n str],
    pub verification: Verification,
    pub report: Report,
    pub verbosity: Verbosity,
    pub jobs: u8,
}

/// Plays scenarios over a driver set, by several jobs at once, and writes a line for each, in
/// order: that all that it expects holds, or the first step that fails, with what is there instead,
/// and if it is wanted the run up to there. A folder stands for the scenarios in and below it, in
/// the order of their paths. Where verification is required, a refused set isn't run: scenarios
/// that expect nothing but a verdict are told, and for others the line of the refusal is. The
/// answer is the exit status, the greatest of those of the scenarios: 0 where all holds, 1 where a
/// step fails or the set is refused, 2 where a file is faulty or can't be read, which is told with
/// its name; 2 where a write failed, and 3 where memory ran out.
pub fn test<R: Threads + Sync, F: Files, O: Sink, E: Sink>(
    rt: &R,
    alloc: Global,
    tests: Tests<'_>,
    files: &mut F,
    out: &mut O,
    err: &mut E,
) -> u8
    requires files { CanOpenMany F.Files files.old }
    requires sinks { CanWrite O.Sink E.Sink out.old err.old }
    ensures answers { Counted
        (TestsEnd (asked_of tests.entry) (F.stands files.old) (F.supply files.old))
        (F.opened files.old) (F.opened files.new) (F.failures files.old) (F.failures files.new)
        (O.failures out.old) (O.failures out.new) (O.contents out.old) (O.contents out.new)
        (Says (E.failures err.old) (E.failures err.new) (E.contents err.old) (E.contents err.new))
        result }
    ensures kept { OnlyReads F.Files files.old files.new }
{
    match test_paths(rt, alloc, tests, files) {
        Ok(told) => deliver(&told, out, err),
        Err(AllocError) => no_memory(err),
    }
}

/// What is answered for the scenarios that paths stand for, played over a set.
fn test_paths<R: Threads + Sync, F: Files>(
    rt: &R,
    alloc: Global,
    tests: Tests<'_>,
    files: &mut F,
) -> Result<Told, AllocError>
    requires files { CanOpenMany F.Files files.old }
    ensures gathers { Gathers
        (AreOfPaths (asked_of tests.entry) (F.stands files.old) (F.supply files.old))
        (F.opened files.old) (F.opened files.new) (F.failures files.old) (F.failures files.new)
        result }
    ensures kept { OnlyReads F.Files files.old files.new }
{
    let search = Search {
        sought: Sought::Scenarios,
        jobs: tests.jobs,
    };
    match find_all(rt, alloc, search, tests.scenarios, files) {
        Ok(names) => {
            let suite = Suite {
                alloc,
                tests,
                names: names.as_slice(),
            };
            test_set(rt, suite, files)
        }
        Err(AllocError) => Err(AllocError),
    }
}

/// Tests of which the scenarios were found: the names of their files.
#[derive(Clone, Copy)]
pub(crate) struct Suite<'n> {
    pub alloc: Global,
    pub tests: Tests<'n>,
    pub names: &'n [String],
}
