//! The driver sets of several files, answered with one log.

ghost use Rattle.std.specs.Prelude.{◌≡◌, ◌<◌, ◌^◌, ℕ};
ghost use Rattle.drvhost_devices.specs.Device.{Says};
ghost use Rattle.drvhost_devices.specs.Ends.{Answers};
ghost use Rattle.drvhost_devices.specs.Ready.{CanWrite};
ghost use Rattle.drvhost_files.specs.Kept.{OnlyReads};
ghost use Rattle.drvhost_files.specs.Ready.{CanOpenMany};
ghost use Rattle.drvhost_many.specs.All.{Counted};
ghost use Rattle.answer_logs.specs.Log.{FilesEnd, IsLogged, PathsEnd};

use crate::found::Found;
use crate::results::read_all;
use crate::rules::log_of;
use drvhost_devices::device::{Failed, Sink};
use drvhost_devices::fault::{no_memory, say};
use drvhost_devices::logging::Logging;
use drvhost_devices::transfer::write_whole;
use drvhost_files::files::Files;
use drvhost_files::sought::{Search, Sought};
use drvhost_many::paths::find_all;
use report::fault::WRITE_FAILED;
use std::alloc::{AllocError, Global};
use std::thread::Threads;

/// A log: what is told in it, and the paths that stand for its files.
#[derive(Clone, Copy)]
pub struct Log<'n> {
    pub alloc: Global,
    pub logging: Logging,
    pub paths: &'n [&'n str],
}

/// Looks at the driver set of each file that one of these paths stands for, and writes what is
/// found, in order, as one log of SARIF: the first fault of a refused set, or that of each routine,
/// explained if asked for; the first fault of a text or an image, or that a file can't be read,
/// each with its place where there is one; and, if asked for, that a set is accepted. The answer is
/// the exit status: the greatest of those of the files, which is 0 for an accepted set, 1 for a
/// refused one, and 2 for a file that is faulty or can't be read; 2 where a write failed, and 3
/// where memory ran out, which is told on the error writer.
pub fn log_paths<T: Threads + Sync, F: Files, O: Sink, E: Sink>(
    rt: &T,
    log: Log<'_>,
    files: &mut F,
    out: &mut O,
    err: &mut E,
) -> u8
    requires files { CanOpenMany F.Files files.old }
    requires sinks { CanWrite O.Sink E.Sink out.old err.old }
    ensures answers { Counted
        (PathsEnd log.entry.logging (λ path. F.stands files.old Sought.Sets path.now)
        (F.supply files.old) log.entry.paths.now) (F.opened files.old) (F.opened files.new)
        (F.failures files.old) (F.failures files.new) (O.failures out.old) (O.failures out.new)
        (O.contents out.old) (O.contents out.new)
        (Says (E.failures err.old) (E.failures err.new) (E.contents err.old) (E.contents err.new))
        result }
    ensures kept { OnlyReads F.Files files.old files.new }
{
    let search = Search {
        sought: Sought::Sets,
        jobs: 1,
    };
    let alloc = log.alloc;
    match find_all(rt, alloc, search, log.paths, files) {
        Ok(names) => log_files(alloc, log.logging, names.as_slice(), files, out, err),
        Err(AllocError) => no_memory(err),
    }
}

/// Looks at the set of each of these files, and writes one log.
fn log_files<F: Files, O: Sink, E: Sink>(
    alloc: Global,
    logging: Logging,
    names: &[String],
    files: &mut F,
    out: &mut O,
    err: &mut E,
) -> u8
    requires files { CanOpenMany F.Files files.old }
    requires sinks { CanWrite O.Sink E.Sink out.old err.old }
    ensures answers { Counted (FilesEnd logging (F.supply files.old) names.now) (F.opened files.old)
        (F.opened files.new) (F.failures files.old) (F.failures files.new) (O.failures out.old)
        (O.failures out.new) (O.contents out.old) (O.contents out.new)
        (Says (E.failures err.old) (E.failures err.new) (E.contents err.old) (E.contents err.new))
        result }
    ensures kept { OnlyReads F.Files files.old files.new }
{
    match read_all(alloc, logging, names, files) {
        Ok(found) => tell(alloc, &found, out, err),
        Err(AllocError) => no_memory(err),
    }
}

/// Writes the log of what was found.
fn tell<O: Sink, E: Sink>(alloc: Global, found: &Found, out: &mut O, err: &mut E) -> u8
    requires { CanWrite O.Sink E.Sink out.old err.old }
    ensures { (reads : ℕ) → Answers (IsLogged found.now.status found.now.findings.items)
        reads reads (O.failures out.old) (O.failures out.new) (O.contents out.old)
        (O.contents out.new)
        (Says (E.failures err.old) (E.failures err.new) (E.contents err.old) (E.contents err.new))
        result }
{
    let line = match log_of(alloc, found.findings.as_slice()) {
        Ok(line) => line,
        Err(AllocError) => return no_memory(err),
    };
    match write_whole(out, line.as_bytes()) {
        Ok(()) => found.status,
        Err(Failed) => {
            say(err, WRITE_FAILED.as_bytes());
            2
        }
    }
}
