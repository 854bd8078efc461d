//! The files that paths stand for.

ghost use Rattle.std.specs.Prelude.{ℕ, IfNone, IfOk, IfSome, List};
ghost use Rattle.drvhost_many.specs.All.{AreFound, IsAlone};

use drvhost_files::files::Files;
use drvhost_files::sought::Search;
use std::alloc::{AllocError, Global};
use std::thread::Threads;

/// The names of the files that are sought for which paths stand, path by path. Behind those of each
/// stand what can't be looked at in and below it: as a file it can't be read, and is told so.
pub fn find_all<T: Threads + Sync, F: Files>(
    rt: &T,
    alloc: Global,
    search: Search,
    paths: &[&str],
    files: &F,
) -> Result<Vec<String>, AllocError>
    ensures { IfOk result (λ names.
        AreFound (λ path. F.stands files.now search.sought path.now) paths.now names.items) }
{
    let mut names = Vec::new(alloc);
    for path in paths {
        let mut found = files.find(rt, search, path)?;
        names.append(&mut found.files)?;
        names.append(&mut found.unread)?;
    }
    Ok(names)
}

/// The one path, if what was found for it is that path itself: it is a file, or can't be looked
/// into.
pub fn alone<'p>(paths: &[&'p str], names: &[String]) -> Option<&'p str>
    ensures some { IfSome result (λ path. IsAlone paths.now names.now path.now) }
    ensures none { IfNone result
        ((path : List ℕ) → IsAlone paths.now names.now path → ⊥) }
{
    if paths.len() != 1 || names.len() != 1 {
        return None;
    }
    let path = paths[0];
    if names[0].as_str() == path {
        Some(path)
    } else {
        None
    }
}
