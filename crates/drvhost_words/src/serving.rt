//! Scripts that workers serve, each by the names of its files.

ghost use Rattle.std.specs.Prelude.{◌≡◌, ◌+◌, ◌<◌, ◌≤◌, ◌^◌, ◌⊎◌, ℕ};
ghost use Rattle.drvhost_devices.specs.Device.{CanCount};
ghost use Rattle.drvhost_devices.specs.Ends.{AnswersBy, HoldsRun};
ghost use Rattle.drvhost_devices.specs.Ready.{CanAnswer, CanWrite};
ghost use Rattle.drvhost_files.specs.Kept.{OnlyReads};
ghost use Rattle.drvhost_files.specs.Ready.{CanOpen};
ghost use Rattle.answer_runs.specs.Readiness.{SaysWarned};
ghost use Rattle.drvhost_words.specs.Program.{AreWarningsBy, IsServedBy, OpensToTrace};
ghost use Rattle.drvhost_words.specs.Unread.{IsNamedUnread, IsOneOf, SaysAround};

use crate::returned::close_both;
use crate::unread::tell_which_unread;
use answer_runs::host::{HostConfig, host};
use cli::job::{Form, Serving, Workers};
use drvhost_devices::device::{Sink, Source};
use drvhost_devices::verification::Verification;
use drvhost_files::files::{Files, Later};
use drvhost_told::host::{HostOptions, host_json};
use std::alloc::Global;
use std::sync::Wait;
use std::thread::Threads;
use workers::Open;

/// A script that is to be served: of which files, by how many workers of a runtime, and how what
/// comes of it is written.
#[derive(Drop)]
struct Orders<'a, R> {
    runtime: &'a R,
    set: &'a str,
    script: &'a str,
    workers: Workers,
    form: Form,
}

/// Has workers serve the script of a file on the set of another one. That of the script is opened
/// for a set that is accepted. The one that can't be read is named.
pub(crate) fn host_files<F: Files, O: Sink, E: Sink, R: Threads + Wait + Sync>(
    rt: &R,
    alloc: Global,
    serving: &Serving<'_>,
    files: &mut F,
    out: &mut O,
    err: &mut E,
) -> u8
    requires files { CanOpen F.Files 2 files.old }
    requires sinks { CanWrite O.Sink E.Sink out.old err.old }
    ensures answers { AnswersBy O.Sink E.Sink
        (SaysAround (AreWarningsBy serving.now.form
        (F.supply files.old serving.now.names.set.now) result)
        (IsNamedUnread (IsOneOf serving.now.names.set.now serving.now.names.input.now)
        (F.failures files.old) (F.failures files.new)))
        (IsServedBy serving.now.form serving.now.workers
        serving.now.names.set.now serving.now.names.input.now
        (F.supply files.old serving.now.names.set.now)
        (F.supply files.old serving.now.names.input.now))
        (F.failures files.old) (F.failures files.new) out.old out.new err.old err.new result }
    ensures opened { (count : ℕ)
        × OpensToTrace Verification.Required
        (F.supply files.old serving.now.names.set.now) count
        × (F.opened files.new ≡ F.opened files.old + count) }
    ensures kept { OnlyReads F.Files files.old files.new }
{
    let names = serving.names;
    let orders = Orders {
        runtime: rt,
        set: names.set,
        script: names.input,
        workers: serving.workers,
        form: serving.form,
    };
    let failures = err.failures();
    let mut file = files.open(names.set);
    let mut later = Later::new(files, names.input);
    let status = serve(alloc, &orders, &mut file, &mut later, out, err);
    tell_which_unread(names, &file, &later, failures, err);
    let commands = later.into_file();
    close_both(files, file, commands);
    status
}

/// Has workers serve the script of a source on the set of another one.
fn serve<S: Source, P: Source, O: Sink, E: Sink, R: Threads + Wait + Sync>(
    alloc: Global,
    orders: &Orders<'_, R>,
    set: &mut S,
    script: &mut P,
    out: &mut O,
    err: &mut E,
) -> u8
    requires devices { CanAnswer O.Sink E.Sink (S.failures set.old) out.old err.old }
    requires script { CanCount (P.failures script.old) }
    ensures unread { (script.new ≡ script.old)
        ⊎ HoldsRun Verification.Required (S.supply set.old) }
    ensures answers { AnswersBy O.Sink E.Sink
        (SaysWarned (AreWarningsBy orders.now.form (S.supply set.old) result))
        (IsServedBy orders.now.form orders.now.workers
        orders.now.set.now orders.now.script.now
        (S.supply set.old) (P.supply script.old))
        (S.failures set.old + P.failures script.old) (S.failures set.new + P.failures script.new)
        out.old out.new err.old err.new result }
{
    let hosting = HostConfig {
        runtime: orders.runtime,
        workers: orders.workers.count(),
        gate: &Open,
    };
    match orders.form {
        Form::Lines => host(alloc, set, script, &hosting, out, err),
        Form::Json => {
            let asked = HostOptions {
                set: orders.set,
                script: orders.script,
                hosting,
            };
            host_json(alloc, &asked, set, script, out, err)
        }
    }
}
