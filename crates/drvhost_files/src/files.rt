//! Files by their names.

ghost use Rattle.std.specs.Prelude.{◌≡◌, ◌+◌, ◌<◌, ◌^◌, ◌↔◌, ℕ, IfOk, IsTrue, List, None, OnErr};
ghost use Rattle.std.specs.Prelude.{Option, length};
ghost use Rattle.std.specs.Io.KnownBytes.{Keeps};
ghost use denote.Param.Send.{IsSync};
ghost use Rattle.drvhost_devices.specs.Device.{Closed, IsSuppliedAs, Supply, Unknown};
ghost use Rattle.drvhost_files.specs.Files.{blank, contents_given, contents_of, failures_of};
ghost use Rattle.drvhost_files.specs.Files.{supply_of, Stores};
ghost use Rattle.drvhost_files.specs.Reading.{AreAnswered, AreHeld, Opens};

use crate::find::{Found, alone, find};
use crate::reading::{
    Answered, Answering, Held, Way, answer_files, count_reads, count_unread, read_files,
};
use crate::sought::Search;
use crate::standard::{Opened, STANDARD_INPUT, open};
use drvhost_devices::device::{Failed, Reader, Sink, Source, Writer};
use std::alloc::AllocError;
use std::fs::File;
use std::io::{StdinLock, Write};
use std::thread::Threads;

/// Files by their names.
pub trait Files {
    /// A file that was opened to be read. It can't be dropped: it is handed back.
    type File: Source;

    /// A file that was opened to be written. It can't be dropped: it is handed back.
    type Target: Sink;

    // What the file of a name has to give, where something is known of it.
    ghost supply: { Self → List ℕ → Supply };

    // What a path may stand for where such files are sought.
    ghost use Rattle.drvhost_files.specs.declared.find.Found.{Found};
    ghost use Rattle.drvhost_files.specs.declared.sought.Sought.{Sought};

    ghost stands: { Self → Sought → List ℕ → Found → Type 0 };

    // How many files were opened to be read and handed back so far.
    ghost opened: { Self → ℕ };

    // How many reads of these failed.
    ghost failures: { Self → ℕ };

    // How many files were opened to be written and handed back so far.
    ghost created: { Self → ℕ };

    // How many writes to these failed.
    ghost unwritten: { Self → ℕ };

    /// The files that a path stands for: itself, or those that are sought in and below the folder
    /// that it is.
    ///
    /// # Errors
    ///
    /// When memory runs out.
    fn find<T: Threads + Sync>(
        &self,
        rt: &T,
        search: Search,
        path: &str,
    ) -> Result<Found, AllocError>
        requires shared { IsSync T.row }
        ensures { IfOk result (stands self.now search.sought path.now) };

    /// Opens the file of a name, to read it from its start. One that can't be opened is a source
    /// that is closed.
    fn open(&self, name: &str) -> Self::File
        ensures supply { IsSuppliedAs (supply self.now name.now) (Self.File.supply result) }
        ensures unread { Self.File.failures result ≡ 0 };

    /// Whether a file is closed, since it can't be opened.
    fn is_closed(&self, file: &Self::File) -> bool
        ensures { IsTrue result ↔ (Self.File.supply file.now ≡ Closed) };

    /// Takes a file back.
    fn close(&mut self, file: Self::File)
        requires room { opened self.old + 1 < 2 ^ 64 }
        requires few { failures self.old + Self.File.failures file < 2 ^ 64 }
        ensures opened { opened self.new ≡ opened self.old + 1 }
        ensures failures { failures self.new ≡ failures self.old + Self.File.failures file }
        ensures created { created self.new ≡ created self.old }
        ensures unwritten { unwritten self.new ≡ unwritten self.old }
        ensures supply { supply self.new ≡ supply self.old };

    /// Reads the files of these names, each whole, by so many jobs at once: what was read of each,
    /// in order, is what one job would have read of it.
    ///
    /// # Errors
    ///
    /// When memory runs out before one is opened.
    fn read_each<'n, T: Threads + Sync>(
        &mut self,
        rt: &T,
        way: Way,
        names: &'n [String],
    ) -> Result<Vec<Held<'n>>, AllocError>
        requires shared { IsSync T.row }
        requires room { opened self.old + length names.now < 2 ^ 64 }
        requires few { failures self.old + length names.now < 2 ^ 64 }
        ensures read { Opens (length names.now) (opened self.old) (opened self.new)
            (failures self.old) (failures self.new)
            (λ opened reads. IfOk result (λ held.
            AreHeld way.is_told (supply self.old) names.now opened reads held.items)) }
        ensures unopened { OnErr result (opened self.new ≡ opened self.old) }
        ensures unread { OnErr result (failures self.new ≡ failures self.old) }
        ensures created { created self.new ≡ created self.old }
        ensures unwritten { unwritten self.new ≡ unwritten self.old }
        ensures supply { supply self.new ≡ supply self.old };

    /// Opens the file of a name, to write it from its start: what it had is gone. Each write to one
    /// that can't be opened fails.
    fn create(&self, name: &str) -> Self::Target
        ensures contents { Keeps (blank (supply self.now name.now))
            (Self.Target.contents result) }
        ensures unwritten { Self.Target.failures result ≡ 0 };

    /// Takes back the file of a name that was opened to be written.
    fn keep(&mut self, name: &str, target: Self::Target)
        requires room { created self.old + 1 < 2 ^ 64 }
        requires few { unwritten self.old + Self.Target.failures target < 2 ^ 64 }
        ensures opened { opened self.new ≡ opened self.old }
        ensures failures { failures self.new ≡ failures self.old }
        ensures created { created self.new ≡ created self.old + 1 }
        ensures unwritten { unwritten self.new ≡ unwritten self.old + Self.Target.failures target }
        ensures stores { Stores (supply self.old) (supply self.new) name.now
            (Self.Target.contents target) };
}

/// The files of a system. Where one is to be read, the name `-` is that of its standard input,
/// which is read from where it stands: once it is at its end, there is nothing more to read.
#[derive(Drop)]
pub struct Disk<'r> {
    system: &'r HostRuntime,
    opened: u64,
    failures: u64,
    created: u64,
    unwritten: u64,
}

impl<'r> Disk<'r> {
    /// The files of a system, of which none was opened.
    pub fn new(system: &'r HostRuntime) -> Disk<'r>
        ensures opened { ⟦<Disk<'r> as Files>⟧.opened result ≡ 0 }
        ensures failures { ⟦<Disk<'r> as Files>⟧.failures result ≡ 0 }
        ensures created { ⟦<Disk<'r> as Files>⟧.created result ≡ 0 }
        ensures unwritten { ⟦<Disk<'r> as Files>⟧.unwritten result ≡ 0 }
    {
        Disk {
            system,
            opened: 0,
            failures: 0,
            created: 0,
            unwritten: 0,
        }
    }

    /// How many were opened to be read and handed back so far.
    pub fn opened(&self) -> u64
        ensures { result ≡ ⟦<Disk<'r> as Files>⟧.opened self.now }
    {
        self.opened
    }

    /// How many reads of these failed.
    pub fn failures(&self) -> u64
        ensures { result ≡ ⟦<Disk<'r> as Files>⟧.failures self.now }
    {
        self.failures
    }

    /// Reads the files of these names, each whole, by so many jobs at once, and answers each where
    /// it was read: for each, in order, what is answered for what one job would have read of it. No
    /// more is kept of it.
    ///
    /// # Errors
    ///
    /// When memory runs out before one is opened.
    pub fn answer_each<'n, T: Threads + Sync, A: Answering + Sync>(
        &mut self,
        rt: &T,
        way: Way,
        names: &'n [String],
        answering: &A,
    ) -> Result<Vec<Answered<'n, A::Answer>>, AllocError>
        requires room { ⟦<Disk<'r> as Files>⟧.opened self.old + length names.now < 2 ^ 64 }
        requires few { ⟦<Disk<'r> as Files>⟧.failures self.old + length names.now < 2 ^ 64 }
        ensures read { Opens (length names.now)
            (⟦<Disk<'r> as Files>⟧.opened self.old) (⟦<Disk<'r> as Files>⟧.opened self.new)
            (⟦<Disk<'r> as Files>⟧.failures self.old) (⟦<Disk<'r> as Files>⟧.failures self.new)
            (λ opened reads. IfOk result (λ answered. AreAnswered way.is_told
            (⟦<Disk<'r> as Files>⟧.supply self.old) (A.answers answering.now) names.now opened
            reads answered.items)) }
        ensures unopened { OnErr result (⟦<Disk<'r> as Files>⟧.opened self.new
            ≡ ⟦<Disk<'r> as Files>⟧.opened self.old) }
        ensures unread { OnErr result (⟦<Disk<'r> as Files>⟧.failures self.new
            ≡ ⟦<Disk<'r> as Files>⟧.failures self.old) }
        ensures created { ⟦<Disk<'r> as Files>⟧.created self.new
            ≡ ⟦<Disk<'r> as Files>⟧.created self.old }
        ensures unwritten { ⟦<Disk<'r> as Files>⟧.unwritten self.new
            ≡ ⟦<Disk<'r> as Files>⟧.unwritten self.old }
    {
        let answered = answer_files(rt, self.system, way, names, answering)?;
        self.opened += names.len() as u64;
        self.failures += count_unread(answered.as_slice());
        Ok(answered)
    }
}

impl Files for Disk<'_> {
    ghost use Rattle.drvhost_files.specs.Found.{IsFound};

    type File = Reader<Opened<File, StdinLock<'static>>>;

    type Target = Output<File>;

    ghost supply = { λ _ _. Unknown };

    ghost stands = { λ _ sought path found. IsFound sought path found };

    ghost opened = { λ disk. disk.opened };

    ghost failures = { λ disk. disk.failures };

    ghost created = { λ disk. disk.created };

    ghost unwritten = { λ disk. disk.unwritten };

    fn find<T: Threads + Sync>(
        &self,
        rt: &T,
        search: Search,
        path: &str,
    ) -> Result<Found, AllocError> {
        if path == STANDARD_INPUT {
            return alone(self.system.alloc(), path);
        }
        find(rt, self.system, search, path)
    }

    fn open(&self, name: &str) -> Reader<Opened<File, StdinLock<'static>>> {
        Reader::new(open(self.system, name))
    }

    fn is_closed(&self, file: &Reader<Opened<File, StdinLock<'static>>>) -> bool {
        file.is_closed()
    }

    fn close(&mut self, file: Reader<Opened<File, StdinLock<'static>>>) {
        self.opened += 1;
        self.failures += file.failures();
    }

    fn read_each<'n, T: Threads + Sync>(
        &mut self,
        rt: &T,
        way: Way,
        names: &'n [String],
    ) -> Result<Vec<Held<'n>>, AllocError> {
        let held = read_files(rt, self.system, way, names)?;
        self.opened += names.len() as u64;
        self.failures += count_reads(held.as_slice());
        Ok(held)
    }

    fn create(&self, name: &str) -> Output<File> {
        Output::new(File::create(self.system, name).ok())
    }

    fn keep(&mut self, _name: &str, target: Output<File>) {
        self.created += 1;
        self.unwritten += target.failures();
    }
}

/// A writer as a sink. Where there is none, as for a file that can't be opened, each write fails.
#[derive(Drop)]
pub struct Output<W> {
    writer: Option<Writer<W>>,
    refused: u64,
}

impl<W: Write> Output<W> {
    /// The sink over a writer, or over none.
    pub fn new(writer: Option<W>) -> Output<W>
        ensures failures { ⟦<Output<W> as Sink>⟧.failures result ≡ 0 }
        ensures contents { ⟦<Output<W> as Sink>⟧.contents result
            ≡ contents_given W.contents writer }
    {
        match writer {
            Some(writer) => Output {
                writer: Some(Writer::new(writer)),
                refused: 0,
            },
            None => Output {
                writer: None,
                refused: 0,
            },
        }
    }
}

impl<W: Write> Output<W> {
    /// The writer again, with what was written to it, if there is one.
    pub fn into_inner(self) -> Option<W>
        ensures { contents_given W.contents result ≡ ⟦<Output<W> as Sink>⟧.contents self }
    {
        match self.writer {
            Some(writer) => Some(writer.into_inner()),
            None => None,
        }
    }
}

impl<W: Write> Sink for Output<W> {
    ghost use Rattle.drvhost_files.specs.Outside.{output_contents, output_failures};

    ghost failures = { λ output. output_failures output };

    ghost contents = { λ output. output_contents W.contents output };

    fn failures(&self) -> u64 {
        match &self.writer {
            Some(writer) => writer.failures(),
            None => self.refused,
        }
    }

    fn write(&mut self, bytes: &[u8]) -> Result<usize, Failed> {
        if let Some(writer) = &mut self.writer {
            return writer.write(bytes);
        }
        self.refused += 1;
        Err(Failed)
    }
}

/// A file that is opened when it is first read.
pub struct Later<'f, F: Files> {
    files: &'f F,
    name: &'f str,
    file: Option<F::File>,
}

impl<'f, F: Files> Later<'f, F> {
    /// The file of a name.
    pub fn new(files: &'f F, name: &'f str) -> Later<'f, F>
        ensures files { result.files.now ≡ files.entry.now }
        ensures name { result.name.now ≡ name.entry.now }
        ensures unopened { result.file ≡ None }
    {
        Later {
            files,
            name,
            file: None,
        }
    }

    /// The file, if it was opened.
    pub fn into_file(self) -> Option<F::File>
        ensures { result ≡ self.entry.file }
    {
        let Later {
            files: _,
            name: _,
            file,
        } = self;
        file
    }
}

impl<F: Files> Source for Later<'_, F> {
    ghost failures = { λ later. failures_of F.File.failures later.file };

    ghost supply = { λ later.
        supply_of F.File.supply (F.supply later.files.now later.name.now) later.file };

    fn failures(&self) -> u64 {
        match &self.file {
            Some(file) => file.failures(),
            None => 0,
        }
    }

    fn read(&mut self, into: &mut [u8]) -> Result<usize, Failed> {
        let mut file = match self.file.take() {
            Some(file) => file,
            None => self.files.open(self.name),
        };
        let read = file.read(into);
        match self.file.replace(file) {
            None => read,
            Some(_) => unreachable!(),
        }
    }
}

/// A file that is opened when it is first written to.
pub struct Pending<'f, F: Files> {
    files: &'f F,
    name: &'f str,
    target: Option<F::Target>,
}

impl<'f, F: Files> Pending<'f, F> {
    /// The file of a name.
    pub fn new(files: &'f F, name: &'f str) -> Pending<'f, F>
        ensures files { result.files.now ≡ files.entry.now }
        ensures name { result.name.now ≡ name.entry.now }
        ensures unopened { result.target ≡ None }
    {
        Pending {
            files,
            name,
            target: None,
        }
    }

    /// The file, if it was opened.
    pub fn into_target(self) -> Option<F::Target>
        ensures { result ≡ self.entry.target }
    {
        let Pending {
            files: _,
            name: _,
            target,
        } = self;
        target
    }
}

impl<F: Files> Sink for Pending<'_, F> {
    ghost failures = { λ pending. failures_of F.Target.failures pending.target };

    ghost contents = { λ pending.
        contents_of F.Target.contents (F.supply pending.files.now pending.name.now)
        pending.target };

    fn failures(&self) -> u64 {
        match &self.target {
            Some(target) => target.failures(),
            None => 0,
        }
    }

    fn write(&mut self, bytes: &[u8]) -> Result<usize, Failed> {
        let mut target = match self.target.take() {
            Some(target) => target,
            None => self.files.create(self.name),
        };
        let written = target.write(bytes);
        match self.target.replace(target) {
            None => written,
            Some(_) => unreachable!(),
        }
    }
}
