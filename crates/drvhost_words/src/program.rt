//! What the program answers.

ghost use Rattle.std.specs.Prelude.{◌≡◌, ◌+◌, ◌<◌, ◌^◌, ℕ, List, Option};
ghost use Rattle.std.specs.Prelude.{drop, map, string_bytes, IfOk};
ghost use Rattle.drvhost_words.specs.Program.{EndsAtOnce, FileEnds, IsAnswerToLost, IsJobCount};
ghost use Rattle.drvhost_words.specs.Program.{IsHelp, IsOfApply, IsPage, IsQuietly, JobEnds};
ghost use Rattle.drvhost_words.specs.Program.{JobStores};
ghost use Rattle.drvhost_words.specs.Program.{MendsFile, PathsEnd, ProgramEnds, ProgramStores};
ghost use Rattle.drvhost_words.specs.Program.{RewritesFile, WordsEnd, WordsStore};
ghost use Rattle.drvhost_words.specs.Program.{asked_by, settled_judging};
ghost use Rattle.drvhost_many.specs.All.{Counted};
ghost use Rattle.drvhost_words.specs.Devices.{CountedOver};
ghost use Rattle.drvhost_tests.specs.Told.{asked_of};
ghost use Rattle.drvhost_words.specs.Unread.{IsNamedUnread, SaysMore};
ghost use Rattle.drvhost_devices.specs.Device.{CanCount, Says};
ghost use Rattle.drvhost_devices.specs.Ends.{Answers, AnswersOver, IsCheckOf, IsRewriteOf};
ghost use Rattle.drvhost_devices.specs.Ready.{CanWrite};
ghost use Rattle.drvhost_files.specs.Kept.{OnlyReads};
ghost use Rattle.drvhost_files.specs.Ready.{CanCreate, CanOpen, CanOpenMany};

use crate::coloring::{settled_judging, settled_way};
use crate::keeping::keep_files;
use crate::running::{Running, run_files};
use crate::serving::host_files;
use crate::task::{Tasked, answer_file};
use crate::unread::tell_if_unread;
use answer::as_text::ended;
use answer::deliver::write_answer;
use answer_explain::rewriting::rewrite;
use answer_explain::rule::{explain_lock_order, explain_rule};
use answer_explain::version::version;
use answer_logs::logging::{Log, log_paths};
use answer_mends::apply::{self, apply};
use cli::job::{Job, JobFault, Judged, Judging, Page, Testing, refuse_unknown_words, refuse_words};
use drvhost_devices::device::Sink;
use drvhost_devices::fault::{End, no_memory};
use drvhost_devices::jobs::MAX_JOBS;
use drvhost_devices::surroundings::Surroundings;
use drvhost_devices::told::Told;
use drvhost_devices::unopened::tell_unopened;
use drvhost_files::files::{Files, Pending};
use drvhost_files::sought::{Search, Sought};
use drvhost_many::file::{Verdict, judge};
use drvhost_many::judging::JudgedFiles;
use drvhost_many::many::{Sets, answer_each};
use drvhost_many::paths::{alone, find_all};
use drvhost_tests::test::{Tests, test};
use report_progress::progress::Progress;
use std::alloc::{AllocError, Global};
use std::io::ErrorKind;
use std::sync::Wait;
use std::thread::Threads;

/// Where the program runs.
#[derive(Clone, Copy)]
pub struct Setting {
    pub alloc: Global,
    /// What it finds around it.
    pub surroundings: Surroundings,
}

/// Does what the words of a command line ask for, the program's own name first, or says why they
/// can't be had. Each file that they name is opened, read and handed back when its turn comes. The
/// answer is the exit status: that of the job that they name; 2 where they name none, and the
/// writer for errors is then told how the program is used; 3 where memory ran out. How far a job
/// has come is told beside the runtime.
pub fn answer<F: JudgedFiles, O: Sink, E: Sink, R: Threads + Wait + Sync + Progress>(
    rt: &R,
    setting: Setting,
    words: Result<Vec<String>, ErrorKind>,
    files: &mut F,
    out: &mut O,
    err: &mut E,
) -> u8
    requires files { CanOpenMany F.Files files.old }
    requires targets { CanCreate F.Files files.old }
    requires sinks { CanWrite O.Sink E.Sink out.old err.old }
    ensures answers { CountedOver F.Files O.Sink E.Sink (ProgramEnds setting.surroundings
        (F.stands files.old) (F.supply files.old) words)
        (F.unwritten files.old + O.failures out.old) (F.unwritten files.new + O.failures out.new)
        files.old files.new out.old out.new err.old err.new result }
    ensures stores { ProgramStores words (F.supply files.old) (F.supply files.new)
        (F.created files.old) (F.created files.new) result }
{
    match words {
        Ok(words) => answer_words(rt, setting, arguments(words.as_slice()), files, out, err),
        Err(kind) => refuse_lost_words(kind, err),
    }
}

/// The words after the program's name.
fn arguments(words: &[String]) -> &[String]
    ensures { result.now ≡ drop 1 words.entry.now }
{
    match words.split_first() {
        Some((_name, arguments)) => arguments,
        None => &[],
    }
}

/// Answers words that can't be had: memory ran out, or some of them aren't text, and they are wrong
/// ones.
fn refuse_lost_words<E: Sink>(kind: ErrorKind, err: &mut E) -> u8
    requires { CanCount (E.failures err.old) }
    ensures { (opened reads writes : ℕ) (written : Option (List ℕ))
        → Counted (EndsAtOnce (IsAnswerToLost kind)) opened opened reads reads writes writes
        written written
        (Says (E.failures err.old) (E.failures err.new) (E.contents err.old) (E.contents err.new))
        result }
{
    if kind == ErrorKind::OutOfMemory {
        refuse_words(&JobFault::Memory, err)
    } else {
        refuse_unknown_words(err)
    }
}

/// Does what the words ask for, without the program's name.
fn answer_words<F: JudgedFiles, O: Sink, E: Sink, R: Threads + Wait + Sync + Progress>(
    rt: &R,
    setting: Setting,
    words: &[String],
    files: &mut F,
    out: &mut O,
    err: &mut E,
) -> u8
    requires files { CanOpenMany F.Files files.old }
    requires targets { CanCreate F.Files files.old }
    requires sinks { CanWrite O.Sink E.Sink out.old err.old }
    ensures answers { CountedOver F.Files O.Sink E.Sink (WordsEnd setting.surroundings
        (F.stands files.old) (F.supply files.old) (map string_bytes words.now))
        (F.unwritten files.old + O.failures out.old) (F.unwritten files.new + O.failures out.new)
        files.old files.new out.old out.new err.old err.new result }
    ensures stores { WordsStore (map string_bytes words.now)
        (F.supply files.old) (F.supply files.new) (F.created files.old) (F.created files.new)
        result }
{
    match Job::of(setting.alloc, words) {
        Ok(job) => perform(rt, setting, &job, files, out, err),
        Err(fault) => refuse_words(&fault, err),
    }
}

/// Does a job with the files that it names. Only what does `host`, or judges several files, is
/// given the runtime as such: nothing else starts a thread, or waits.
fn perform<F: JudgedFiles, O: Sink, E: Sink, R: Threads + Wait + Sync + Progress>(
    rt: &R,
    setting: Setting,
    job: &Job<'_>,
    files: &mut F,
    out: &mut O,
    err: &mut E,
) -> u8
    requires files { CanOpenMany F.Files files.old }
    requires targets { CanCreate F.Files files.old }
    requires sinks { CanWrite O.Sink E.Sink out.old err.old }
    ensures answers { CountedOver F.Files O.Sink E.Sink
        (JobEnds setting.surroundings (F.stands files.old) (F.supply files.old) job.now)
        (F.unwritten files.old + O.failures out.old) (F.unwritten files.new + O.failures out.new)
        files.old files.new out.old out.new err.old err.new result }
    ensures stores { JobStores job.now (F.supply files.old) (F.supply files.new)
        (F.created files.old) (F.created files.new) result }
{
    let alloc = setting.alloc;
    match job {
        Job::Page(page) => write_answer(answer_page(alloc, *page), out, err),
        Job::Help(text) => write_answer(answer_help(alloc, text), out, err),
        Job::OnPaths(judged) => judge_paths(rt, setting, judged, files, out, err),
        Job::Log { paths, logging } => {
            let log = Log {
                alloc,
                logging: *logging,
                paths: paths.as_slice(),
            };
            log_paths(rt, log, files, out, err)
        }
        Job::Test(testing) => {
            let jobs = job_count(testing.jobs, setting.surroundings.processors);
            test(rt, alloc, tests_of(testing, jobs), files, out, err)
        }
        Job::Rewrite { set, output } => rewrite_file(alloc, set, output, files, err),
        Job::Apply { set, tries, wanted } => {
            let asked = apply::ApplyOptions {
                tries: *tries,
                wanted: *wanted,
            };
            mend_file(alloc, Mending { set, asked }, files, out, err)
        }
        Job::OnSet { set, task } => {
            let tasked = Tasked {
                task: *task,
                progress: rt,
            };
            answer_file(alloc, &tasked, set, files, out, err)
        }
        Job::OnRun { names, way } => {
            let names = *names;
            let way = settled_way(setting.surroundings, *way);
            run_files(alloc, Running { names, way }, files, out, err)
        }
        Job::Host(serving) => host_files(rt, alloc, serving, files, out, err),
        Job::Keep(keeping) => keep_files(rt, alloc, keeping, files, out, err),
    }
}

/// What is asked of tests, which so many jobs share.
fn tests_of<'n>(testing: &'n Testing<'n>, jobs: u8) -> Tests<'n>
    ensures { asked_of result ≡ asked_by testing.entry.now }
{
    Tests {
        set: testing.set,
        scenarios: testing.scenarios.as_slice(),
        verification: testing.verification,
        report: testing.report,
        verbosity: testing.verbosity,
        jobs,
    }
}

/// A page that stands in the program.
fn answer_page(alloc: Global, page: Page) -> Result<Told, AllocError>
    ensures { IfOk result (IsPage page) }
{
    match page {
        Page::Rule(rule) => explain_rule(alloc, rule),
        Page::LockOrder => explain_lock_order(alloc),
        Page::Version => version(alloc),
    }
}

/// The text of help that words ask for.
fn answer_help(alloc: Global, text: &String) -> Result<Told, AllocError>
    ensures { IfOk result (IsHelp (string_bytes text.now)) }
{
    let mut page = Vec::new(alloc);
    page.extend_from_slice(text.as_bytes())?;
    Ok(ended(alloc, End::Complete, page))
}

/// Judges the sets that paths stand for: that of one file alone as it is, and others each told with
/// its name.
fn judge_paths<R: Threads + Sync + Progress, F: JudgedFiles, O: Sink, E: Sink>(
    rt: &R,
    setting: Setting,
    judged: &Judged<'_>,
    files: &mut F,
    out: &mut O,
    err: &mut E,
) -> u8
    requires files { CanOpenMany F.Files files.old }
    requires sinks { CanWrite O.Sink E.Sink out.old err.old }
    ensures answers { CountedOver F.Files O.Sink E.Sink
        (PathsEnd (F.stands files.old) (F.supply files.old) judged.now.paths.items
        (settled_judging setting.surroundings judged.now.judging) judged.now.jobs)
        (O.failures out.old) (O.failures out.new)
        files.old files.new out.old out.new err.old err.new result }
    ensures kept { OnlyReads F.Files files.old files.new }
{
    let alloc = setting.alloc;
    let judging = settled_judging(setting.surroundings, judged.judging);
    let paths = judged.paths.as_slice();
    let search = Search {
        sought: Sought::Sets,
        jobs: job_count(judged.jobs, setting.surroundings.processors),
    };
    match find_all(rt, alloc, search, paths, files) {
        Ok(names) => match alone(paths, names.as_slice()) {
            Some(path) => judge_file(alloc, judging, path, files, out, err),
            None => {
                let sets = Sets {
                    alloc,
                    judging,
                    jobs: search.jobs,
                    names: names.as_slice(),
                };
                answer_each(rt, sets, files, out, err)
            }
        },
        Err(AllocError) => no_memory(err),
    }
}

/// How many jobs share several files, where so many are asked for, or else by how many processors
/// there are.
fn job_count(asked: Option<u64>, processors: usize) -> u8
    ensures { IsJobCount asked result }
{
    let count = match asked {
        Some(count) => count,
        None => processors as u64,
    };
    count.min(MAX_JOBS) as u8
}

/// Judges the set of one file alone.
fn judge_file<F: Files, O: Sink, E: Sink>(
    alloc: Global,
    judging: Judging,
    set: &str,
    files: &mut F,
    out: &mut O,
    err: &mut E,
) -> u8
    requires files { CanOpen F.Files 1 files.old }
    requires sinks { CanWrite O.Sink E.Sink out.old err.old }
    ensures answers { CountedOver F.Files O.Sink E.Sink
        (FileEnds judging (F.supply files.old) set.now)
        (O.failures out.old) (O.failures out.new)
        files.old files.new out.old out.new err.old err.new result }
    ensures kept { OnlyReads F.Files files.old files.new }
{
    match judging {
        Judging::Check => check_file(alloc, set, files, out, err),
        Judging::CheckJson | Judging::Explain(_, _) | Judging::ExplainJson(_) => {
            answer_file(alloc, &Verdict { judging }, set, files, out, err)
        }
    }
}

/// Writes the verdict on the set of a file.
fn check_file<F: Files, O: Sink, E: Sink>(
    alloc: Global,
    set: &str,
    files: &mut F,
    out: &mut O,
    err: &mut E,
) -> u8
    requires files { CanOpen F.Files 1 files.old }
    requires sinks { CanWrite O.Sink E.Sink out.old err.old }
    ensures answers { AnswersOver O.Sink E.Sink (IsCheckOf (F.supply files.old set.now))
        (F.failures files.old) (F.failures files.new) out.old out.new err.old err.new result }
    ensures opened { F.opened files.new ≡ F.opened files.old + 1 }
    ensures kept { OnlyReads F.Files files.old files.new }
{
    let mut file = files.open(set);
    let status = judge(alloc, Judging::Check, set, &mut file, out, err);
    files.close(file);
    status
}

/// Writes the image of the set of a file to another one, which is opened only once the image stands
/// in memory, and may be the same.
fn rewrite_file<F: Files, E: Sink>(
    alloc: Global,
    set: &str,
    output: &str,
    files: &mut F,
    err: &mut E,
) -> u8
    requires files { CanOpen F.Files 1 files.old }
    requires targets { CanCreate F.Files files.old }
    requires err { CanCount (E.failures err.old) }
    ensures answers { (writes : ℕ) (written : Option (List ℕ))
        → Answers (IsQuietly (IsRewriteOf (F.supply files.old set.now)))
        (F.failures files.old) (F.failures files.new)
        (F.unwritten files.old + writes) (F.unwritten files.new + writes) written written
        (Says (E.failures err.old) (E.failures err.new) (E.contents err.old) (E.contents err.new))
        result }
    ensures opened { F.opened files.new ≡ F.opened files.old + 1 }
    ensures stores { RewritesFile (F.supply files.old set.now) output.now
        (F.supply files.old) (F.supply files.new) (F.created files.old) (F.created files.new)
        result }
{
    let mut file = files.open(set);
    let mut pending = Pending::new(files, output);
    let status = rewrite(alloc, &mut file, &mut pending, err);
    let target = pending.into_target();
    files.close(file);
    if let Some(target) = target {
        files.keep(output, target);
    }
    status
}

/// A mend that is to be applied to the text of a file.
#[derive(Clone, Copy)]
struct Mending<'n> {
    set: &'n str,
    asked: apply::ApplyOptions,
}

/// Applies a mend to the text of a file, which is written anew once the text that the mend makes
/// stands in memory and its diff was written. One that can't be opened or read is named.
fn mend_file<F: Files, O: Sink, E: Sink>(
    alloc: Global,
    mending: Mending<'_>,
    files: &mut F,
    out: &mut O,
    err: &mut E,
) -> u8
    requires files { CanOpen F.Files 1 files.old }
    requires targets { CanCreate F.Files files.old }
    requires sinks { CanWrite O.Sink E.Sink out.old err.old }
    ensures answers { Answers
        (IsOfApply mending.entry.asked (F.supply files.old) mending.entry.set.now)
        (F.failures files.old) (F.failures files.new)
        (F.unwritten files.old + O.failures out.old) (F.unwritten files.new + O.failures out.new)
        (O.contents out.old) (O.contents out.new)
        (SaysMore (IsNamedUnread (λ name. name ≡ mending.entry.set.now)
        (F.failures files.old) (F.failures files.new))
        (E.failures err.old) (E.failures err.new) (E.contents err.old) (E.contents err.new))
        result }
    ensures opened { F.opened files.new ≡ F.opened files.old + 1 }
    ensures stores { MendsFile mending.entry.asked mending.entry.set.now
        (F.supply files.old) (F.supply files.new) (F.created files.old) (F.created files.new)
        result }
{
    let set = mending.set;
    let failures = err.failures();
    let mut file = files.open(set);
    if files.is_closed(&file) {
        files.close(file);
        return tell_unopened(set, err);
    }
    let mut pending = Pending::new(files, set);
    let status = apply(alloc, mending.asked, &mut file, out, &mut pending, err);
    tell_if_unread(set, &file, failures, err);
    let target = pending.into_target();
    files.close(file);
    if let Some(target) = target {
        files.keep(set, target);
    }
    status
}
