//! The answer for one file.

ghost use Rattle.std.specs.Prelude.{IfOk};
ghost use Rattle.drvhost_devices.specs.Device.{Says};
ghost use Rattle.drvhost_devices.specs.Ends.{Answers};
ghost use Rattle.drvhost_devices.specs.Ready.{CanAnswer};
ghost use Rattle.drvhost_many.specs.Held.{IsAnswerTo, IsToldOf};
ghost use Rattle.drvhost_many.specs.One.{IsJudged};

use crate::named::{One, with_name};
use crate::painting::InColor;
use answer::as_json::Json;
use answer::as_text::Text;
use answer::check::Judgement;
use answer::content::{Content, Named};
use answer::deliver::deliver;
use answer::job::Job;
use answer::judged::Judged;
use answer_explain::explaining::ExplainedText;
use answer_explain::in_json::ExplainedJson;
use answer_explain::showing::WithHunt;
use cli::job::Judging;
use drvhost_devices::device::{Sink, Source};
use drvhost_devices::told::Told;
use drvhost_files::reading::{Contents, Held};
use std::alloc::{AllocError, Global};

/// The job of judging a set so, in the form that this names.
#[derive(Clone, Copy)]
pub struct Verdict {
    pub judging: Judging,
}

impl Job for Verdict {
    ghost use Rattle.drvhost_many.specs.One.{IsJudgedFrom};

    ghost right = { λ verdict file. IsJudgedFrom verdict.judging file.name.now file.content };

    fn answer(&self, alloc: Global, set: &Named<'_>) -> Result<Told, AllocError> {
        let job = Judgement;
        match self.judging {
            Judging::Check => Judged { job, form: Text }.answer(alloc, set),
            Judging::CheckJson => Judged { job, form: Json }.answer(alloc, set),
            Judging::Explain(extent, coloring) => {
                let form = ExplainedText { extent };
                let job = WithHunt {
                    job: Judged { job, form },
                };
                InColor { job, coloring }.answer(alloc, set)
            }
            Judging::ExplainJson(extent) => {
                let form = ExplainedJson { extent };
                Judged { job, form }.answer(alloc, set)
            }
        }
    }
}

/// What is answered for a file that was read, told with its name.
pub(crate) fn answer_held(
    alloc: Global,
    judging: Judging,
    held: &Held<'_>,
) -> Result<Told, AllocError>
    ensures { IfOk result (IsToldOf judging held.now) }
{
    let told = answer_alone(alloc, judging, held)?;
    with_name(alloc, One::of(judging, held.name), &told)
}

/// What is answered for it alone.
fn answer_alone(alloc: Global, judging: Judging, held: &Held<'_>) -> Result<Told, AllocError>
    ensures { IfOk result (IsAnswerTo judging held.now.name.now held.now.contents) }
{
    let verdict = Verdict { judging };
    let name = held.name;
    match &held.contents {
        Contents::Whole(bytes) => {
            let content = Content::Whole(bytes.as_slice());
            verdict.answer(alloc, &Named { name, content })
        }
        Contents::Unread => {
            let content = Content::Unread;
            verdict.answer(alloc, &Named { name, content })
        }
        Contents::Unopened => {
            let content = Content::Unopened;
            verdict.answer(alloc, &Named { name, content })
        }
        Contents::Lacking => Err(AllocError),
    }
}

/// Judges the set of a source, whose file has this name.
pub fn judge<S: Source, O: Sink, E: Sink>(
    alloc: Global,
    judging: Judging,
    name: &str,
    set: &mut S,
    out: &mut O,
    err: &mut E,
) -> u8
    requires { CanAnswer O.Sink E.Sink (S.failures set.old) out.old err.old }
    ensures { Answers (IsJudged judging name.now (S.supply set.old))
        (S.failures set.old) (S.failures set.new) (O.failures out.old) (O.failures out.new)
        (O.contents out.old) (O.contents out.new)
        (Says (E.failures err.old) (E.failures err.new) (E.contents err.old) (E.contents err.new))
        result }
{
    deliver(&Verdict { judging }, alloc, name, set, out, err)
}
