//! Scripts that workers serve and whose history is kept, each by the names of its files.

ghost use Rattle.std.specs.Prelude.{◌≡◌, ◌+◌, ◌<◌, ◌^◌, ℕ};
ghost use Rattle.drvhost_devices.specs.Ends.{Answers};
ghost use Rattle.drvhost_devices.specs.Ready.{CanWrite};
ghost use Rattle.drvhost_files.specs.Ready.{CanCreate, CanOpen};
ghost use Rattle.answer_runs.specs.Keeping.{IsKeptOf};
ghost use Rattle.answer_runs.specs.Readiness.{AreWarningsOf};
ghost use Rattle.drvhost_words.specs.Program.{KeepsHistory, OpensToTrace};
ghost use Rattle.drvhost_words.specs.Unread.{IsNamedUnread, IsOneOf, SaysAround};

use crate::returned::{close_both, keep_if_opened};
use crate::unread::tell_which_unread;
use answer_runs::host::HostConfig;
use answer_runs::keeping::{self, host_keeping};
use cli::job::Keeping;
use drvhost_devices::device::{Sink, Source};
use drvhost_devices::verification::Verification;
use drvhost_files::files::{Files, Later, Pending};
use std::alloc::Global;
use std::sync::Wait;
use std::thread::Threads;
use workers::Open;

/// Has workers serve the script of a file on the set of another one, and their history written to a
/// third, which may be one of them: it is opened only once all else was written. That of the script
/// is opened for a set that is accepted. The one that can't be read is named.
pub(crate) fn keep_files<F: Files, O: Sink, E: Sink, R: Threads + Wait + Sync>(
    rt: &R,
    alloc: Global,
    keeping: &Keeping<'_>,
    files: &mut F,
    out: &mut O,
    err: &mut E,
) -> u8
    requires files { CanOpen F.Files 2 files.old }
    requires targets { CanCreate F.Files files.old }
    requires sinks { CanWrite O.Sink E.Sink out.old err.old }
    ensures answers { Answers (IsKeptOf keeping.now.workers
        (F.supply files.old keeping.now.names.set.now)
        (F.supply files.old keeping.now.names.input.now))
        (F.failures files.old) (F.failures files.new)
        (F.unwritten files.old + O.failures out.old) (F.unwritten files.new + O.failures out.new)
        (O.contents out.old) (O.contents out.new)
        (SaysAround (AreWarningsOf (F.supply files.old keeping.now.names.set.now) result)
        (IsNamedUnread (IsOneOf keeping.now.names.set.now keeping.now.names.input.now)
        (F.failures files.old) (F.failures files.new))
        (E.failures err.old) (E.failures err.new) (E.contents err.old) (E.contents err.new))
        result }
    ensures opened { (count : ℕ)
        × OpensToTrace Verification.Required
        (F.supply files.old keeping.now.names.set.now) count
        × (F.opened files.new ≡ F.opened files.old + count) }
    ensures stores { KeepsHistory keeping.now.workers
        (F.supply files.old keeping.now.names.set.now)
        (F.supply files.old keeping.now.names.input.now) keeping.now.output.now
        (F.supply files.old) (F.supply files.new) (F.created files.old) (F.created files.new)
        result }
{
    let names = keeping.names;
    let output = keeping.output;
    let count = keeping.workers.count();
    let kept = keeping::Keeping {
        alloc,
        hosting: HostConfig {
            runtime: rt,
            workers: count,
            gate: &Open,
        },
    };
    let failures = err.failures();
    let mut file = files.open(names.set);
    let mut later = Later::new(files, names.input);
    let mut pending = Pending::new(files, output);
    let status = host_keeping(&kept, &mut file, &mut later, out, &mut pending, err);
    tell_which_unread(names, &file, &later, failures, err);
    let commands = later.into_file();
    let target = pending.into_target();
    close_both(files, file, commands);
    keep_if_opened(files, output, target);
    status
}
