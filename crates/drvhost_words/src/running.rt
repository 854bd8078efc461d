//! Runs of the set of a file by the input of another one, each by the names of the files.

ghost use Rattle.std.specs.Prelude.{◌≡◌, ◌+◌, ◌<◌, ◌^◌, ◌⊎◌, ℕ};
ghost use Rattle.drvhost_devices.specs.Device.{CanCount};
ghost use Rattle.drvhost_devices.specs.Ends.{AnswersBy, AnswersOver, HoldsRun};
ghost use Rattle.drvhost_devices.specs.Ready.{CanAnswer, CanWrite};
ghost use Rattle.drvhost_files.specs.Kept.{OnlyReads};
ghost use Rattle.drvhost_files.specs.Ready.{CanOpen};
ghost use Rattle.drvhost_words.specs.Program.{IsRunBy, OpensToTrace, verification_of};
ghost use Rattle.drvhost_words.specs.Unread.{IsNamedUnread, IsOneOf, SaysMore};

use crate::returned::close_both;
use crate::telling::{Shown, tell_shown};
use crate::unread::tell_which_unread;
use answer::as_json::Json;
use answer::as_text::Text;
use answer::run::{ToRun, deliver_run};
use answer_runs::trace::{TraceOptions, trace, trace_json};
use answer_scenarios::schedule::schedule;
use answer_views::draw::Drawn;
use answer_views::in_json::InJson;
use cli::job::{FileNames, Way};
use drvhost_devices::device::{Sink, Source};
use drvhost_files::files::{Files, Later};
use std::alloc::Global;

/// A set that is run by the input of another file.
#[derive(Clone, Copy)]
pub(crate) struct Running<'n> {
    pub(crate) names: FileNames<'n>,
    pub(crate) way: Way,
}

/// Runs the set of a file by the input of another one, which is opened for a run alone. The one
/// that can't be read is named.
pub(crate) fn run_files<F: Files, O: Sink, E: Sink>(
    alloc: Global,
    running: Running<'_>,
    files: &mut F,
    out: &mut O,
    err: &mut E,
) -> u8
    requires files { CanOpen F.Files 2 files.old }
    requires sinks { CanWrite O.Sink E.Sink out.old err.old }
    ensures answers { AnswersBy O.Sink E.Sink
        (SaysMore (IsNamedUnread (IsOneOf running.entry.names.set.now running.entry.names.input.now)
        (F.failures files.old) (F.failures files.new)))
        (IsRunBy running.entry.way
        running.entry.names.set running.entry.names.input
        (F.supply files.old running.entry.names.set.now)
        (F.supply files.old running.entry.names.input.now))
        (F.failures files.old) (F.failures files.new) out.old out.new err.old err.new result }
    ensures opened { (count : ℕ)
        × OpensToTrace (verification_of running.entry.way)
        (F.supply files.old running.entry.names.set.now) count
        × (F.opened files.new ≡ F.opened files.old + count) }
    ensures kept { OnlyReads F.Files files.old files.new }
{
    let names = running.names;
    let failures = err.failures();
    let mut file = files.open(names.set);
    let mut later = Later::new(files, names.input);
    let status = run(alloc, running, &mut file, &mut later, out, err);
    tell_which_unread(names, &file, &later, failures, err);
    let input = later.into_file();
    close_both(files, file, input);
    status
}

/// Runs the set of a source by the input of another one.
fn run<S: Source, P: Source, O: Sink, E: Sink>(
    alloc: Global,
    running: Running<'_>,
    set: &mut S,
    input: &mut P,
    out: &mut O,
    err: &mut E,
) -> u8
    requires devices { CanAnswer O.Sink E.Sink (S.failures set.old) out.old err.old }
    requires input { CanCount (P.failures input.old) }
    ensures unread { (input.new ≡ input.old)
        ⊎ HoldsRun (verification_of running.entry.way) (S.supply set.old) }
    ensures answers { AnswersOver O.Sink E.Sink (IsRunBy running.entry.way
        running.entry.names.set running.entry.names.input
        (S.supply set.old) (P.supply input.old))
        (S.failures set.old + P.failures input.old) (S.failures set.new + P.failures input.new)
        out.old out.new err.old err.new result }
{
    match running.way {
        Way::Trace(verification) => trace(alloc, set, input, verification, out, err),
        Way::TraceJson(verification) => {
            let asked = TraceOptions {
                set: running.names.set,
                schedule: running.names.input,
                verification,
            };
            trace_json(alloc, asked, set, input, out, err)
        }
        Way::Tell(verification, manner, coloring) => {
            let shown = Shown {
                verification,
                manner,
                coloring,
            };
            tell_shown(alloc, shown, set, input, out, err)
        }
        Way::TellJson(verification, strictness) => {
            let told = ToRun {
                job: InJson { strictness },
                form: Json,
                verification,
                set: running.names.set,
                input: running.names.input,
            };
            deliver_run(&told, alloc, set, input, out, err)
        }
        Way::Draw(verification, figure) => {
            let drawn = ToRun {
                job: Drawn { figure },
                form: Text,
                verification,
                set: "",
                input: "",
            };
            deliver_run(&drawn, alloc, set, input, out, err)
        }
        Way::Schedule(verification) => schedule(alloc, verification, set, input, out, err),
    }
}
