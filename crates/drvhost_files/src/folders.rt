//! Folders by their paths.

ghost use Rattle.std.specs.Prelude.{◌<◌, IfOk, List, Option, ⊤, ℕ};
ghost use denote.Param.Send.{IsSync};

use std::alloc::{AllocError, Global};
use std::fs::{self, DirEntry, FileType};
use std::io;
use std::thread::{self, Threads};

/// How few entries are worth a thread of their own.
const ENTRIES_LEAST: usize = 64;

/// What an entry of a folder is.
#[derive(Clone, Copy)]
pub enum Kind {
    /// A folder.
    Folder,
    /// A file.
    File,
    /// Something else, as a link.
    Other,
    /// It can't be told.
    Unknown,
}

/// An entry of a folder.
#[derive(Drop)]
pub struct Entry {
    /// Its path: that of the folder, and its name.
    pub path: String,
    /// What it is.
    pub kind: Kind,
}

/// What a folder has.
#[derive(Drop)]
pub struct Listing {
    /// Its entries that can be had.
    pub entries: Vec<Entry>,
    /// Whether these are all: the name of one may not be UTF-8.
    pub is_whole: bool,
}

/// Folders by their paths.
pub trait Folders {
    ghost use Rattle.drvhost_files.specs.declared.folders.Listing.{Listing};

    // What the folder of a path may have: nothing where it is none, or none that can be opened.
    ghost lists: { Self → List ℕ → Option Listing → Type 0 };

    /// What the folder of a path has, if it is one that can be opened.
    ///
    /// # Errors
    ///
    /// When memory runs out.
    fn list<T: Threads + Sync>(
        &self,
        rt: &T,
        alloc: Global,
        path: &str,
    ) -> Result<Option<Listing>, AllocError>
        requires shared { IsSync T.row }
        ensures { IfOk result (lists self.now path.now) };
}

/// The folders of a system.
#[derive(Drop)]
pub struct System<'r> {
    system: &'r HostRuntime,
    jobs: u8,
}

impl<'r> System<'r> {
    /// The folders of a system, whose entries are looked at by so many jobs at once, at most.
    pub fn new(system: &'r HostRuntime, jobs: u8) -> System<'r> {
        System { system, jobs }
    }
}

impl Folders for System<'_> {
    ghost lists = { λ _ _ _. ⊤ };

    fn list<T: Threads + Sync>(
        &self,
        rt: &T,
        alloc: Global,
        path: &str,
    ) -> Result<Option<Listing>, AllocError> {
        let Some(mut named) = named_in(self.system, alloc, path)? else {
            return Ok(None);
        };
        let looking = Looking {
            alloc,
            system: self.system,
        };
        look_at_each(rt, looking, self.jobs, named.entries.as_mut_slice());
        Ok(Some(named.listing(alloc)?))
    }
}

/// What a folder has by names, and what its entries were found to be.
#[derive(Drop)]
struct NamedIn {
    entries: Vec<Named>,
    is_whole: bool,
}

impl NamedIn {
    /// What it has, where there was memory to look at each entry.
    fn listing(self, alloc: Global) -> Result<Listing, AllocError> {
        let mut entries = Vec::new(alloc);
        for one in self.entries {
            entries.push(one.found?)?;
        }
        Ok(Listing {
            entries,
            is_whole: self.is_whole,
        })
    }
}

/// An entry of a folder by its name, and what it was found to be, where there was memory to look.
#[derive(Drop)]
struct Named {
    named: DirEntry<HostRuntime>,
    found: Result<Entry, AllocError>,
}

impl Named {
    /// Looks what the entry is. A link isn't followed.
    fn look(&self, looking: Looking<'_>) -> Result<Entry, AllocError> {
        let path = self.named.path();
        let kind = match fs::symlink_metadata(looking.system, path) {
            Ok(found) => kind_of(found.file_type()),
            Err(error) => {
                pass_over(error)?;
                Kind::Unknown
            }
        };
        Ok(Entry {
            path: String::from_str(looking.alloc, path.as_str())?,
            kind,
        })
    }
}

/// How entries are looked at.
#[derive(Clone, Copy)]
struct Looking<'r> {
    alloc: Global,
    system: &'r HostRuntime,
}

/// Looks what each of these entries is, by so many jobs at once, at most. It is left to each to
/// bring its part into order: then less is left to be sorted by one.
fn look_at_each<T: Threads + Sync>(rt: &T, looking: Looking<'_>, jobs: u8, entries: &mut [Named]) {
    let part = entries_each(jobs, entries.len());
    thread::for_each_chunk_mut(
        rt,
        entries,
        part,
        &|_, some: &mut [Named]| {
            look_at_some(looking, some);
        },
    );
}

/// How many of so many entries a job looks at.
fn entries_each(jobs: u8, entries: usize) -> usize
    ensures { 0 < result }
{
    entries.div_ceil((jobs as usize).max(1)).max(ENTRIES_LEAST)
}

/// Looks at some entries, and brings them into the order of their paths, where there is memory for
/// it.
fn look_at_some(looking: Looking<'_>, some: &mut [Named]) {
    for one in 0..some.len() {
        some[one].found = some[one].look(looking);
    }
    let _is_sorted = some.sort_by(looking.alloc, |one: &Named, other: &Named| {
        one.named.path().as_str().cmp(other.named.path().as_str())
    });
}

/// What the folder of a path has by names, if it is one that can be opened.
fn named_in(
    system: &HostRuntime,
    alloc: Global,
    path: &str,
) -> Result<Option<NamedIn>, AllocError> {
    let found = match fs::read_dir(system, path) {
        Ok(found) => found,
        Err(error) => {
            pass_over(error)?;
            return Ok(None);
        }
    };
    let mut named = NamedIn {
        entries: Vec::new(alloc),
        is_whole: true,
    };
    for entry in found {
        match entry {
            Ok(entry) => named.entries.push(Named {
                named: entry,
                found: Err(AllocError),
            })?,
            Err(error) => {
                pass_over(error)?;
                named.is_whole = false;
            }
        }
    }
    Ok(Some(named))
}

/// What an entry of this type is.
fn kind_of(found: FileType) -> Kind {
    if found.is_dir() {
        return Kind::Folder;
    }
    if found.is_file() {
        return Kind::File;
    }
    Kind::Other
}

/// Passes over an error, but for want of memory.
fn pass_over(error: io::Error) -> Result<(), AllocError> {
    if error.kind() == io::ErrorKind::OutOfMemory {
        return Err(AllocError);
    }
    Ok(())
}
