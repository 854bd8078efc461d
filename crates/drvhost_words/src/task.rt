//! What is done with the set of a file alone, by the name of the file.

ghost use Rattle.std.specs.Prelude.{◌≡◌, ◌+◌, ◌<◌, ◌^◌, IfOk};
ghost use Rattle.drvhost_devices.specs.Ready.{CanWrite};
ghost use Rattle.drvhost_files.specs.Kept.{OnlyReads};
ghost use Rattle.drvhost_files.specs.Ready.{CanOpen};
ghost use Rattle.drvhost_devices.specs.Ends.{AnswersBy};
ghost use Rattle.answer_hunts.specs.Find.{IsFindOf};
ghost use Rattle.drvhost_many.specs.One.{IsFrom};
ghost use Rattle.drvhost_words.specs.Program.{IsHuntIn, IsListBy, IsMendIn, IsOfFile};
ghost use Rattle.drvhost_words.specs.Program.{IsRightOf, IsStatsBy};
ghost use Rattle.drvhost_words.specs.Unread.{IsNamedUnread, SaysMore};

use crate::unread::tell_if_unread;
use answer::as_json::Json;
use answer::as_text::Text;
use answer::check::Judgement;
use answer::content::{Content, Named};
use answer::deliver::{deliver, write_answer};
use answer::job::Job;
use answer::judged::{Judged, Unjudged};
use answer::list::Listing;
use answer_hunts::find::Finding;
use answer_hunts::hunt::{Hunting, Way};
use answer_mends::as_json::MendsJson;
use answer_mends::mend::{MendOptions, MendsText};
use answer_stats::stats::Statistics;
use cli::job::{Form, Task};
use drvhost_devices::device::Sink;
use drvhost_devices::told::Told;
use drvhost_files::files::Files;
use hunt_facts::reach::Reach;
use report_progress::progress::Progress;
use std::alloc::{AllocError, Global};

/// Does a job with the set of a file. One that can't be opened or read is named.
pub(crate) fn answer_file<J: Job, F: Files, O: Sink, E: Sink>(
    alloc: Global,
    job: &J,
    set: &str,
    files: &mut F,
    out: &mut O,
    err: &mut E,
) -> u8
    requires files { CanOpen F.Files 1 files.old }
    requires sinks { CanWrite O.Sink E.Sink out.old err.old }
    ensures answers { AnswersBy O.Sink E.Sink
        (SaysMore (IsNamedUnread (λ name. name ≡ set.now)
        (F.failures files.old) (F.failures files.new)))
        (IsOfFile (IsRightOf J.Job job.now) (F.supply files.old) set.now)
        (F.failures files.old) (F.failures files.new) out.old out.new err.old err.new result }
    ensures opened { F.opened files.new ≡ F.opened files.old + 1 }
    ensures kept { OnlyReads F.Files files.old files.new }
{
    let failures = err.failures();
    let mut file = files.open(set);
    if files.is_closed(&file) {
        files.close(file);
        let unopened = Named {
            name: set,
            content: Content::Unopened,
        };
        return write_answer(job.answer(alloc, &unopened), out, err);
    }
    let status = deliver(job, alloc, set, &mut file, out, err);
    tell_if_unread(set, &file, failures, err);
    files.close(file);
    status
}

/// A task with the set of a file, and whom it tells how far it has come.
#[derive(Drop)]
pub(crate) struct Tasked<'p, P> {
    pub(crate) task: Task,
    pub(crate) progress: &'p P,
}

impl<P: Progress> Job for Tasked<'_, P> {
    ghost use Rattle.drvhost_words.specs.Program.{IsTaskFrom};

    ghost right = { λ tasked file. IsTaskFrom tasked.task file.name.now file.content };

    fn answer(&self, alloc: Global, set: &Named<'_>) -> Result<Told, AllocError> {
        match self.task {
            Task::Mend(tries, form) => mend(form, MendOptions { tries }, alloc, set),
            Task::List(form) => list(form, alloc, set),
            Task::Hunt(reach, form) => self.hunt(Way::Quick, reach, form, alloc, set),
            Task::HuntExactly(reach, form) => self.hunt(Way::Exact, reach, form, alloc, set),
            Task::Find(reach) => self.find(Way::Quick, reach, alloc, set),
            Task::FindExactly(reach) => self.find(Way::Exact, reach, alloc, set),
            Task::Stats(form) => stats(form, alloc, set),
        }
    }
}

impl<P: Progress> Tasked<'_, P> {
    /// A hunt through the runs of a set, in a form.
    fn hunt(
        &self,
        way: Way,
        reach: Reach,
        form: Form,
        alloc: Global,
        set: &Named<'_>,
    ) -> Result<Told, AllocError>
        ensures { IfOk result (IsFrom form (IsHuntIn form way reach set.now.name.now)
            set.now.name.now set.now.content) }
    {
        let job = Hunting {
            reach,
            way,
            progress: self.progress,
        };
        match form {
            Form::Lines => Unjudged { job, form: Text }.answer(alloc, set),
            Form::Json => Unjudged { job, form: Json }.answer(alloc, set),
        }
    }

    /// The same as text, but of a run that is found a scenario is written.
    fn find(
        &self,
        way: Way,
        reach: Reach,
        alloc: Global,
        set: &Named<'_>,
    ) -> Result<Told, AllocError>
        ensures { IfOk result (IsFrom Form.Lines (IsFindOf way reach) set.now.name.now
            set.now.content) }
    {
        let hunting = Hunting {
            reach,
            way,
            progress: self.progress,
        };
        let found = Unjudged {
            job: Finding { hunting },
            form: Text,
        };
        found.answer(alloc, set)
    }
}

/// Mends of a set, in a form.
fn mend(form: Form, asked: MendOptions, alloc: Global, set: &Named<'_>) -> Result<Told, AllocError>
    ensures { IfOk result (IsFrom form (IsMendIn form asked set.now.name.now)
        set.now.name.now set.now.content) }
{
    let job = Judgement;
    match form {
        Form::Lines => {
            let form = MendsText { asked };
            Judged { job, form }.answer(alloc, set)
        }
        Form::Json => {
            let form = MendsJson { asked };
            Judged { job, form }.answer(alloc, set)
        }
    }
}

/// The listing of a set, in a form.
fn list(form: Form, alloc: Global, set: &Named<'_>) -> Result<Told, AllocError>
    ensures { IfOk result (IsFrom form (IsListBy form set.now.name.now)
        set.now.name.now set.now.content) }
{
    let job = Listing;
    match form {
        Form::Lines => Unjudged { job, form: Text }.answer(alloc, set),
        Form::Json => Unjudged { job, form: Json }.answer(alloc, set),
    }
}

/// What there is in a set, in a form.
fn stats(form: Form, alloc: Global, set: &Named<'_>) -> Result<Told, AllocError>
    ensures { IfOk result (IsFrom form (IsStatsBy form set.now.name.now)
        set.now.name.now set.now.content) }
{
    let job = Statistics;
    match form {
        Form::Lines => Judged { job, form: Text }.answer(alloc, set),
        Form::Json => Judged { job, form: Json }.answer(alloc, set),
    }
}
