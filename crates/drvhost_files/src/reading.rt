//! Files that are read whole, by several jobs at once.

ghost use Rattle.std.specs.Prelude.{◌≡◌, ◌≤◌, ◌<◌, ◌↔◌, IfOk, IsTrue, length};
ghost use Rattle.std.specs.List.{AllZip, sum_by};
ghost use Rattle.drvhost_devices.specs.Device.{CanCount, Closed, Unknown};
ghost use Rattle.drvhost_files.specs.Reading.{IsAnsweredBy, IsAnsweredFor, IsHeld, IsNamed};
ghost use Rattle.drvhost_files.specs.Reading.{IsNamedSo, IsReadOf, failed_reads, held_reads};
ghost use Rattle.drvhost_files.specs.Reading.{reads_of};

use crate::standard::{STANDARD_INPUT, open};
use drvhost_devices::device::{Reader, Source};
use drvhost_devices::fault::Fault;
use drvhost_devices::transfer::read_whole;
use std::alloc::{AllocError, Global};
use std::thread::{self, Threads};

/// How few files are worth a thread of their own.
const FILES_LEAST: usize = 16;

/// How large a block is asked for, and given back, before files are read.
const BLOCK_KEPT: usize = 1 << 20;

/// What was read of a file.
#[derive(Drop)]
pub enum Contents {
    /// All its bytes.
    Whole(Vec<u8>),
    /// A read failed.
    Unread,
    /// It can't be opened, which is told.
    Unopened,
    /// Memory ran out.
    Lacking,
}

impl Contents {
    /// Whether a read of it failed.
    fn is_unread(&self) -> bool
        ensures { failed_reads result ≡ reads_of self.now }
    {
        matches!(self, Contents::Unread)
    }
}

/// A file that was read: its name, and what was read of it.
#[derive(Drop)]
pub struct Held<'n> {
    pub name: &'n str,
    pub contents: Contents,
}

/// What is answered for files that are read.
pub trait Answering {
    ghost use Rattle.drvhost_files.specs.declared.reading.Held.{Held};

    /// What is answered for one of them.
    type Answer: Send + Drop;

    // What may be answered for a file of which this was read.
    ghost answers: { Self → Held → Self.Answer → Type 0 };

    /// What is answered for a file of which this was read.
    ///
    /// # Errors
    ///
    /// When memory runs out.
    fn answer(&self, held: &Held<'_>) -> Result<Self::Answer, AllocError>
        ensures { IfOk result (answers self.now held.now) };
}

/// A file that was read and answered.
#[derive(Drop)]
pub struct Answered<'n, A> {
    pub name: &'n str,
    /// Whether a read of it failed.
    pub is_unread: bool,
    /// What was answered for it, where there was memory for that.
    pub answer: Result<A, AllocError>,
}

/// How files are read.
#[derive(Clone, Copy)]
pub struct Way {
    pub alloc: Global,
    /// Whether one that can't be opened isn't read, since that is told.
    pub is_told: bool,
    /// How many jobs share them, at most.
    pub jobs: u8,
}

/// Reads the files of these names, by so many jobs at once.
///
/// # Errors
///
/// When memory runs out before one is opened.
pub(crate) fn read_files<'n, T: Threads + Sync>(
    rt: &T,
    system: &HostRuntime,
    way: Way,
    names: &'n [String],
) -> Result<Vec<Held<'n>>, AllocError>
    ensures { IfOk result (λ held.
        AllZip (IsHeld way.is_told (λ _. Unknown)) names.now held.items) }
{
    let mut held = hold_names(way.alloc, names)?;
    keep_memory(way.alloc);
    let threads = thread_count(way, names);
    thread::for_each_mut(
        rt,
        held.as_mut_slice(),
        threads,
        &|_, one: &mut Held<'_>| {
            read_held(system, way, one);
        },
    );
    Ok(held)
}

/// Reads the files of these names, by so many jobs at once, and answers each.
///
/// # Errors
///
/// When memory runs out before one is opened.
pub(crate) fn answer_files<'n, T: Threads + Sync, A: Answering + Sync>(
    rt: &T,
    system: &HostRuntime,
    way: Way,
    names: &'n [String],
    answering: &A,
) -> Result<Vec<Answered<'n, A::Answer>>, AllocError>
    ensures { IfOk result (λ answered. AllZip
        (IsAnsweredFor way.is_told (λ _. Unknown) (A.answers answering.now)) names.now
        answered.items) }
{
    let mut answered = name_each(way.alloc, names)?;
    keep_memory(way.alloc);
    let threads = thread_count(way, names);
    thread::for_each_mut(
        rt,
        answered.as_mut_slice(),
        threads,
        &|_, one: &mut Answered<'_, A::Answer>| {
            answer_one(system, way, answering, one);
        },
    );
    Ok(answered)
}

/// Files of these names, for none of which something was answered so far.
fn name_each<'n, A: Drop>(
    alloc: Global,
    names: &'n [String],
) -> Result<Vec<Answered<'n, A>>, AllocError>
    ensures { IfOk result (λ answered. AllZip IsNamedSo names.now answered.items) }
{
    let mut answered = Vec::new(alloc);
    for name in names {
        answered.push(Answered {
            name: name.as_str(),
            is_unread: false,
            answer: Err(AllocError),
        })?;
    }
    Ok(answered)
}

/// Reads a file by its name, and answers it.
fn answer_one<A: Answering>(
    system: &HostRuntime,
    way: Way,
    answering: &A,
    one: &mut Answered<'_, A::Answer>,
)
    ensures name { one.new.name ≡ one.old.name }
    ensures answered { IsAnsweredBy way.is_told Unknown (A.answers answering.now) one.new }
{
    let mut held = Held {
        name: one.name,
        contents: Contents::Unread,
    };
    read_held(system, way, &mut held);
    one.is_unread = held.contents.is_unread();
    one.answer = answering.answer(&held);
}

/// Has the C library keep memory that is given back to it: of what is free for a thread it keeps
/// twice the largest block that it ever took from the system and gave back, and only 128 KiB
/// before. So memory would go back to the system at each file, and be touched anew for the next.
fn keep_memory(alloc: Global) {
    let _block = Vec::<u8>::with_capacity(alloc, BLOCK_KEPT);
}

/// Files of these names, of which nothing was read so far.
fn hold_names<'n>(alloc: Global, names: &'n [String]) -> Result<Vec<Held<'n>>, AllocError>
    ensures { IfOk result (λ held. AllZip IsNamed names.now held.items) }
{
    let mut held = Vec::new(alloc);
    for name in names {
        held.push(Held {
            name: name.as_str(),
            contents: Contents::Unread,
        })?;
    }
    Ok(held)
}

/// How many threads are to read the files of these names. The standard input may stand among them
/// more than once: who reads it first decides what is left of it, so one thread reads them all.
fn thread_count(way: Way, names: &[String]) -> usize
    ensures { 0 < result }
{
    if names.iter().any(|name| name.as_str() == STANDARD_INPUT) {
        return 1;
    }
    (names.len() / FILES_LEAST).min(way.jobs as usize).max(1)
}

/// Reads a file by its name.
fn read_held(system: &HostRuntime, way: Way, one: &mut Held<'_>)
    ensures name { one.new.name ≡ one.old.name }
    ensures read { IsReadOf way.is_told Unknown one.new.contents }
{
    let mut file = Reader::new(open(system, one.name));
    let is_closed = file.is_closed();
    one.contents = read_source(way, is_closed, &mut file);
}

/// What is read of a source, by whether it is closed.
fn read_source<S: Source>(way: Way, is_closed: bool, source: &mut S) -> Contents
    requires count { CanCount (S.failures source.old) }
    requires closed { IsTrue is_closed ↔ (S.supply source.old ≡ Closed) }
    ensures { IsReadOf way.is_told (S.supply source.old) result }
{
    if way.is_told && is_closed {
        return Contents::Unopened;
    }
    match read_whole(way.alloc, source) {
        Ok(bytes) => Contents::Whole(bytes),
        Err(Fault::Read) => Contents::Unread,
        Err(_) => Contents::Lacking,
    }
}

/// How many reads of files failed that were answered.
pub(crate) fn count_unread<A>(answered: &[Answered<'_, A>]) -> u64
    ensures sum { result ≡ sum_by (λ one. failed_reads one.is_unread) answered.now }
    ensures few { result ≤ length answered.now }
{
    let mut count = 0;
    for one in answered {
        if one.is_unread {
            count += 1;
        }
    }
    count
}

/// How many reads of files failed.
pub(crate) fn count_reads(held: &[Held<'_>]) -> u64
    ensures sum { result ≡ sum_by held_reads held.now }
    ensures few { result ≤ length held.now }
{
    let mut count = 0;
    for one in held {
        if one.contents.is_unread() {
            count += 1;
        }
    }
    count
}
