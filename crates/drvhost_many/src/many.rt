//! The driver sets of several files, judged by several jobs at once.

ghost use Rattle.std.specs.Io.KnownBytes.{Appends};
ghost use Rattle.std.specs.Prelude.{◌≡◌, ◌+◌, ◌≤◌, ◌<◌, ◌^◌, ◌++◌, [], IsTrue, List, OnErr};
ghost use Rattle.std.specs.Prelude.{OnOk, false, length, max};
ghost use Rattle.std.specs.List.{AllZip};
ghost use Rattle.drvhost_devices.specs.Device.{CanCount, Says, SaysBehind};
ghost use Rattle.drvhost_devices.specs.Ready.{CanWrite};
ghost use Rattle.drvhost_files.specs.Kept.{OnlyReads};
ghost use Rattle.drvhost_files.specs.declared.reading.Held.{Held};
ghost use Rattle.drvhost_files.specs.Reading.{IsAnswered};
ghost use Rattle.drvhost_files.specs.Ready.{CanOpenMany};
ghost use Rattle.drvhost_many.specs.All.{AnswersEach, Counted, EachGoes, end_status, width_of};
ghost use Rattle.drvhost_many.specs.Held.{DeliversEach, IsToldOf, TellsLost};
ghost use Rattle.drvhost_many.specs.One.{Delivers, IsLost, halt_status, is_in_json};

use crate::judging::JudgedFiles;
use crate::named::{One, tell_no_memory};
use cli::job::Judging;
use drvhost_devices::device::{Failed, Sink};
use drvhost_devices::told::Told;
use drvhost_devices::transfer::write_whole;
use drvhost_devices::unopened::say_behind;
use drvhost_files::reading::{Answered, Way};
use report::fault::WRITE_FAILED;
use report_progress::progress::{Progress, Reached};
use std::alloc::{AllocError, Global};
use std::thread::Threads;

/// How many files a job is handed at once.
const FILES_EACH: usize = 256;

/// How many bytes of answers are gathered at most.
const GATHERED_MOST: usize = 1 << 16;

/// The driver sets of several files, and how they are judged.
#[derive(Clone, Copy)]
pub struct Sets<'n> {
    pub alloc: Global,
    pub judging: Judging,
    /// How many jobs share them, at most.
    pub jobs: u8,
    /// The names of the files.
    pub names: &'n [String],
}

impl<'n> Sets<'n> {
    /// How many files are in hand at once.
    fn width(self) -> usize
        ensures width { result ≡ width_of self.entry.jobs }
        ensures some { 0 < result }
    {
        if self.jobs < 2 {
            return 1;
        }
        FILES_EACH * self.jobs as usize
    }
}

/// Judges the set of each of these files, by so many jobs at once, and tells the answers in order,
/// each with the name of its file: before each line of a verdict, in a line of JSON, or in a line
/// above an explanation. With one job what is answered for a file goes out before the next is
/// opened. Several are handed 256 files each at once, and each is judged where it was read, of
/// which the answer alone is kept. The answer is the greatest exit status. A file that can't be
/// read, or is faulty, doesn't keep from the others; a write that fails does, and want of memory.
/// How many of the files are done is told meanwhile.
pub fn answer_each<R: Threads + Sync + Progress, F: JudgedFiles, O: Sink, E: Sink>(
    rt: &R,
    sets: Sets<'_>,
    files: &mut F,
    out: &mut O,
    err: &mut E,
) -> u8
    requires files { CanOpenMany F.Files files.old }
    requires sinks { CanWrite O.Sink E.Sink out.old err.old }
    ensures answers { AnswersEach sets.entry.judging (width_of sets.entry.jobs)
        (F.supply files.old) sets.entry.names.now (F.opened files.old) (F.opened files.new)
        (F.failures files.old) (F.failures files.new) (O.failures out.old) (O.failures out.new)
        (O.contents out.old) (O.contents out.new)
        (Says (E.failures err.old) (E.failures err.new) (E.contents err.old) (E.contents err.new))
        result }
    ensures kept { OnlyReads F.Files files.old files.new }
{
    match answer_all(rt, sets, files, out, err) {
        Ok(status) => status,
        Err(halt) => halt.status(),
    }
}

/// Judges the set of each of these files, some at a time.
fn answer_all<R: Threads + Sync + Progress, F: JudgedFiles, O: Sink, E: Sink>(
    rt: &R,
    sets: Sets<'_>,
    files: &mut F,
    out: &mut O,
    err: &mut E,
) -> Result<u8, Halt>
    requires files { CanOpenMany F.Files files.old }
    requires sinks { CanWrite O.Sink E.Sink out.old err.old }
    ensures answers { Counted
        (EachGoes sets.entry.judging (width_of sets.entry.jobs) (F.supply files.old)
        sets.entry.names.now result)
        (F.opened files.old) (F.opened files.new) (F.failures files.old) (F.failures files.new)
        (O.failures out.old) (O.failures out.new) (O.contents out.old) (O.contents out.new)
        (Says (E.failures err.old) (E.failures err.new) (E.contents err.old) (E.contents err.new))
        (end_status result) }
    ensures kept { OnlyReads F.Files files.old files.new }
{
    let failures = err.failures();
    let width = sets.width();
    let mut status = 0;
    let mut rest = sets.names;
    while !rest.is_empty() {
        let (some, behind) = rest.split_at(width.min(rest.len()));
        let window = Window {
            sets,
            names: some,
            failures,
        };
        match answer_window(rt, &window, files, out, err) {
            Ok(answered) => status = greater(status, answered),
            Err(halt) => return Err(halt),
        }
        rest = behind;
        tell_behind(rt, behind.len(), sets.names.len());
    }
    rt.clear();
    Ok(status)
}

/// Tells how many of all files are done, where so many are left.
fn tell_behind<P: Progress>(progress: &P, left: usize, all: usize) {
    progress.tell(Reached::Of {
        done: all.saturating_sub(left),
        all,
    });
}

/// Some of these files, which are judged at once. What an error writer is told of them stands
/// behind what it was told since it had failed so often.
#[derive(Clone, Copy)]
struct Window<'n> {
    sets: Sets<'n>,
    names: &'n [String],
    failures: u64,
}

/// Judges the set of each of some files, at once.
fn answer_window<R: Threads + Sync + Progress, F: JudgedFiles, O: Sink, E: Sink>(
    rt: &R,
    window: &Window<'_>,
    files: &mut F,
    out: &mut O,
    err: &mut E,
) -> Result<u8, Halt>
    requires some { 0 < length window.now.names.now }
    requires few { length window.now.names.now ≤ width_of window.now.sets.jobs }
    requires opened { F.opened files.old + length window.now.names.now < 2 ^ 64 }
    requires files { F.failures files.old + length window.now.names.now < 2 ^ 64 }
    requires out { CanCount (O.failures out.old) }
    requires failures { CanCount window.now.failures }
    ensures answers { Counted
        (EachGoes window.now.sets.judging (width_of window.now.sets.jobs) (F.supply files.old)
        window.now.names.now result)
        (F.opened files.old) (F.opened files.new) (F.failures files.old) (F.failures files.new)
        (O.failures out.old) (O.failures out.new) (O.contents out.old) (O.contents out.new)
        (SaysBehind window.now.failures (E.failures err.old) (E.failures err.new)
        (E.contents err.old) (E.contents err.new)) (end_status result) }
    ensures kept { OnlyReads F.Files files.old files.new }
{
    let sets = window.sets;
    let way = Way {
        alloc: sets.alloc,
        is_told: is_in_json(sets.judging),
        jobs: sets.jobs,
    };
    let Ok(answered) = files.judge_each(rt, way, sets.judging, window.names) else {
        return Err(lose(rt, window, err));
    };
    rt.clear();
    let failures = window.failures;
    deliver_each(
        sets.alloc,
        sets.judging,
        answered.as_slice(),
        out,
        failures,
        err,
    )
}

/// Whether all that is answered is JSON: then a file that can't be opened is told so too.
fn is_in_json(judging: Judging) -> bool
    ensures { result ≡ is_in_json judging }
{
    matches!(judging, Judging::CheckJson | Judging::ExplainJson(_))
}

/// Tells that memory ran out for the first of some files.
fn lose<P: Progress, E: Sink>(progress: &P, window: &Window<'_>, err: &mut E) -> Halt
    requires some { 0 < length window.now.names.now }
    requires failures { CanCount window.now.failures }
    ensures memory { result ≡ Halt.Memory }
    ensures told { TellsLost window.now.sets.judging window.now.names.now
        (SaysBehind window.now.failures (E.failures err.old) (E.failures err.new)
        (E.contents err.old) (E.contents err.new)) }
{
    progress.clear();
    let one = One::of(window.sets.judging, window.names[0].as_str());
    tell_no_memory(one, window.failures, err);
    Halt::Memory
}

/// Writes the answers for files that were read to their writers, in order. The outputs of those that
/// tell nothing are gathered, and go out at once.
fn deliver_each<O: Sink, E: Sink>(
    alloc: Global,
    judging: Judging,
    answered: &[Answered<'_, Told>],
    out: &mut O,
    failures: u64,
    err: &mut E,
) -> Result<u8, Halt>
    requires out { CanCount (O.failures out.old) }
    requires failures { CanCount failures }
    ensures { (held : List Held)
        → AllZip (IsAnswered (IsToldOf judging)) held answered.now
        → DeliversEach judging held (O.failures out.old) (O.failures out.new)
        (O.contents out.old) (O.contents out.new)
        (SaysBehind failures (E.failures err.old) (E.failures err.new) (E.contents err.old)
        (E.contents err.new)) result }
{
    let mut status = 0;
    let mut gathered = Vec::new(alloc);
    for i in 0..answered.len() {
        let one = &answered[i];
        let Ok(told) = &one.answer else {
            if let Err(Failed) = write_gathered(&mut gathered, out, failures, err) {
                return Err(Halt::Write);
            }
            tell_no_memory(One::of(judging, one.name), failures, err);
            return Err(Halt::Memory);
        };
        if !is_gathered(told, &mut gathered) {
            if let Err(Failed) = write_gathered(&mut gathered, out, failures, err) {
                return Err(Halt::Write);
            }
            if let Err(halt) = deliver(told, out, failures, err) {
                return Err(halt);
            }
        }
        status = greater(status, told.status());
    }
    if let Err(Failed) = write_gathered(&mut gathered, out, failures, err) {
        return Err(Halt::Write);
    }
    Ok(status)
}

/// Whether the output of an answer was gathered: it tells nothing, and there is room.
fn is_gathered(told: &Told, gathered: &mut Vec<u8>) -> bool
    ensures gathered { IsTrue result → (told.now.told ≡ [])
        × (gathered.new.items ≡ gathered.old.items ++ told.now.output) }
    ensures apart { result ≡ false → gathered.new.items ≡ gathered.old.items }
{
    let output = told.output();
    if !told.told().is_empty() || gathered.len() + output.len() > GATHERED_MOST {
        return false;
    }
    gathered.extend_from_slice(output).is_ok()
}

/// Writes what was gathered, if it is anything.
fn write_gathered<O: Sink, E: Sink>(
    gathered: &mut Vec<u8>,
    out: &mut O,
    failures: u64,
    err: &mut E,
) -> Result<(), Failed>
    requires out { CanCount (O.failures out.old) }
    requires failures { CanCount failures }
    ensures gathered { OnOk result (gathered.new.items ≡ []) }
    ensures written { OnOk result ((O.failures out.new ≡ O.failures out.old)
        × Appends (O.contents out.old) (O.contents out.new) gathered.old.items
        × (err.new ≡ err.old)) }
    ensures lost { OnErr result (IsLost gathered.old.items (O.failures out.old)
        (O.failures out.new) (O.contents out.old) (O.contents out.new)
        (SaysBehind failures (E.failures err.old) (E.failures err.new) (E.contents err.old)
        (E.contents err.new))) }
{
    if gathered.is_empty() {
        return Ok(());
    }
    if let Err(Failed) = write_whole(out, gathered.as_slice()) {
        say_behind(WRITE_FAILED.as_bytes(), failures, err);
        return Err(Failed);
    }
    gathered.clear();
    Ok(())
}

/// The greater of two exit statuses.
fn greater(status: u8, other: u8) -> u8
    ensures { result ≡ max status other }
{
    if status < other { other } else { status }
}

/// What keeps from going on with the next file.
#[derive(Clone, Copy)]
pub(crate) enum Halt {
    /// A write failed.
    Write,
    /// A growth was refused.
    Memory,
}

impl Halt {
    /// The exit status.
    fn status(self) -> u8
        ensures { result ≡ halt_status self }
    {
        match self {
            Halt::Write => 2,
            Halt::Memory => 3,
        }
    }
}

/// Writes an answer to its writers.
fn deliver<O: Sink, E: Sink>(
    told: &Told,
    out: &mut O,
    failures: u64,
    err: &mut E,
) -> Result<u8, Halt>
    requires out { CanCount (O.failures out.old) }
    requires failures { CanCount failures }
    ensures { Delivers told.now (O.failures out.old) (O.failures out.new) (O.contents out.old)
        (O.contents out.new)
        (SaysBehind failures (E.failures err.old) (E.failures err.new) (E.contents err.old)
        (E.contents err.new)) result }
{
    if let Err(Failed) = write_whole(out, told.output()) {
        say_behind(WRITE_FAILED.as_bytes(), failures, err);
        return Err(Halt::Write);
    }
    say_behind(told.told(), failures, err);
    Ok(told.status())
}
