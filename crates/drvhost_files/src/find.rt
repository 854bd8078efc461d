//! The files that a path stands for.

ghost use Rattle.std.specs.Prelude.{◌≡◌, ◌∷◌, ◌++◌, [], IfOk, List, OnOk, Option, ℕ};
ghost use Rattle.drvhost_files.specs.declared.folders.Listing.{Listing};
ghost use Rattle.drvhost_files.specs.declared.sought.Sought.{Sought};
ghost use Rattle.drvhost_files.specs.Found.{AreNamed, IsAlone, IsFound};
ghost use Rattle.drvhost_files.specs.Below.{AreBelow, Knows, Lists, file_of, files_of, folder_of};
ghost use Rattle.drvhost_files.specs.Below.{folders_of};

use crate::folders::{Entry, Folders, Kind, Listing, System};
use crate::sought::{Search, Sought, is_name_of};
use std::alloc::{AllocError, Global};
use std::thread::Threads;

/// What was found for a path.
#[derive(Drop)]
pub struct Found {
    /// The files, in the order of the bytes of their paths.
    pub files: Vec<String>,
    /// The entries of folders that can't be looked at, and the folders of which not all entries can
    /// be had, as where the name of one isn't UTF-8; in that order.
    pub unread: Vec<String>,
    /// Whether the path is that of a folder.
    pub is_folder: bool,
}

/// What gathers while folders are looked into.
#[derive(Drop)]
pub(crate) struct Gathered {
    waiting: Vec<String>,
    files: Vec<String>,
    unread: Vec<String>,
}

/// The files that a path stands for. A path that is no folder, or none that can be opened, stands
/// for itself. A folder stands for the files in it, and below it, that are sought by their names.
/// A link in a folder is passed over, so a ring of links is no matter; a path that is itself a link
/// to a folder is followed.
///
/// # Errors
///
/// When memory runs out.
pub fn find<T: Threads + Sync>(
    rt: &T,
    system: &HostRuntime,
    search: Search,
    path: &str,
) -> Result<Found, AllocError>
    ensures { IfOk result (IsFound search.sought path.now) }
{
    let folders = System::new(system, search.jobs);
    find_in(rt, system.alloc(), &folders, search.sought, path)
}

/// The files that a path stands for, by what folders have.
///
/// # Errors
///
/// When memory runs out.
pub fn find_in<T: Threads + Sync, D: Folders>(
    rt: &T,
    alloc: Global,
    folders: &D,
    sought: Sought,
    path: &str,
) -> Result<Found, AllocError>
    ensures found { IfOk result (IsFound sought path.now) }
    ensures below { IfOk result (λ found. (has : List ℕ → Option Listing)
        → Lists (D.lists folders.now) has → AreBelow sought has path.now found.files.items) }
{
    let Some(listing) = folders.list(rt, alloc, path)? else {
        return alone(alloc, path);
    };
    let mut gathered = Gathered {
        waiting: Vec::new(alloc),
        files: Vec::new(alloc),
        unread: Vec::new(alloc),
    };
    keep_all(alloc, listing, sought, path, &mut gathered)?;
    look_below(rt, alloc, folders, sought, &mut gathered)?;
    gathered.files.sort()?;
    gathered.unread.sort()?;
    Ok(Found {
        files: gathered.files,
        unread: gathered.unread,
        is_folder: true,
    })
}

/// What is found for a path that stands for itself.
///
/// # Errors
///
/// When memory runs out.
pub fn alone(alloc: Global, path: &str) -> Result<Found, AllocError>
    ensures found { (sought : Sought) → IfOk result (IsFound sought path.now) }
    ensures alone { IfOk result (λ found. IsAlone path.now found.files.items) }
{
    let mut files = Vec::new(alloc);
    files.push(String::from_str(alloc, path)?)?;
    Ok(Found {
        files,
        unread: Vec::new(alloc),
        is_folder: false,
    })
}

/// Looks into each folder that waits, and into those below it.
fn look_below<T: Threads + Sync, D: Folders>(
    rt: &T,
    alloc: Global,
    folders: &D,
    sought: Sought,
    gathered: &mut Gathered,
) -> Result<(), AllocError>
    requires { AreNamed sought gathered.old.files.items }
    ensures sets { OnOk result (AreNamed sought gathered.new.files.items) }
    ensures below { OnOk result ((has : List ℕ → Option Listing) → (root : List ℕ)
        → Lists (D.lists folders.now) has
        → Knows sought has root gathered.old.waiting.items gathered.old.files.items
        → Knows sought has root [] gathered.new.files.items) }
{
    for _ in 0..u64::MAX {
        let Some(folder) = gathered.waiting.pop() else {
            return Ok(());
        };
        look_into(rt, alloc, folders, sought, folder, gathered)?;
    }
    // So many folders have no memory.
    Err(AllocError)
}

/// Looks into a folder that waited.
fn look_into<T: Threads + Sync, D: Folders>(
    rt: &T,
    alloc: Global,
    folders: &D,
    sought: Sought,
    folder: String,
    gathered: &mut Gathered,
) -> Result<(), AllocError>
    requires { AreNamed sought gathered.old.files.items }
    ensures sets { OnOk result (AreNamed sought gathered.new.files.items) }
    ensures below { OnOk result ((has : List ℕ → Option Listing) → (root : List ℕ)
        → Lists (D.lists folders.now) has
        → Knows sought has root (gathered.old.waiting.items ++ folder ∷ []) gathered.old.files.items
        → Knows sought has root gathered.new.waiting.items gathered.new.files.items) }
{
    let Some(listing) = folders.list(rt, alloc, folder.as_str())? else {
        gathered.unread.push(folder)?;
        return Ok(());
    };
    keep_all(alloc, listing, sought, folder.as_str(), gathered)?;
    Ok(())
}

/// Keeps what a folder has: its folders wait, and its files that are sought are found.
fn keep_all(
    alloc: Global,
    listing: Listing,
    sought: Sought,
    folder: &str,
    gathered: &mut Gathered,
) -> Result<(), AllocError>
    requires { AreNamed sought gathered.old.files.items }
    ensures sets { OnOk result (AreNamed sought gathered.new.files.items) }
    ensures folders { OnOk result (gathered.new.waiting.items
        ≡ gathered.old.waiting.items ++ folders_of listing) }
    ensures files { OnOk result (gathered.new.files.items
        ≡ gathered.old.files.items ++ files_of sought listing) }
{
    let is_whole = listing.is_whole;
    for entry in listing.entries {
        keep(entry, sought, gathered)?;
    }
    if !is_whole {
        gathered.unread.push(String::from_str(alloc, folder)?)?;
    }
    Ok(())
}

/// Keeps an entry of a folder: a folder waits, and a file that is sought is found.
fn keep(entry: Entry, sought: Sought, gathered: &mut Gathered) -> Result<(), AllocError>
    requires { AreNamed sought gathered.old.files.items }
    ensures sets { OnOk result (AreNamed sought gathered.new.files.items) }
    ensures folders { OnOk result (gathered.new.waiting.items
        ≡ gathered.old.waiting.items ++ folder_of entry) }
    ensures files { OnOk result (gathered.new.files.items
        ≡ gathered.old.files.items ++ file_of sought entry) }
{
    match entry.kind {
        Kind::Folder => gathered.waiting.push(entry.path)?,
        Kind::File => {
            if is_name_of(sought, entry.path.as_str()) {
                gathered.files.push(entry.path)?;
            }
        }
        Kind::Unknown => gathered.unread.push(entry.path)?,
        Kind::Other => {}
    }
    Ok(())
}
