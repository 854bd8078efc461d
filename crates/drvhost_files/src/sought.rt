//! What is sought in folders, by the names of files.

ghost use Rattle.std.specs.Prelude.{◌≡◌};
ghost use Rattle.drvhost_files.specs.Found.{is_name_of};

/// What is sought in folders.
#[derive(Clone, Copy)]
pub enum Sought {
    /// Driver sets: the names of their texts end in `.drv`, those of their images in `.image`.
    Sets,
    /// Scenarios: their names end in `.scenario`.
    Scenarios,
}

/// A search: what is sought, and by how many jobs at once, at most.
#[derive(Clone, Copy)]
pub struct Search {
    pub sought: Sought,
    pub jobs: u8,
}

/// Whether a path ends as that of a file which is sought.
pub fn is_name_of(sought: Sought, path: &str) -> bool
    ensures { result ≡ is_name_of sought path.now }
{
    let bytes = path.as_bytes();
    match sought {
        Sought::Sets => bytes.ends_with(b".drv") || bytes.ends_with(b".image"),
        Sought::Scenarios => bytes.ends_with(b".scenario"),
    }
}
