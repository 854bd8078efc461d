//! What is found in files.

ghost use Rattle.std.specs.Prelude.{◌≡◌, ◌++◌, ◌∷◌, [], IfOk, OnOk, max};

use report_sarif::log::Finding;
use std::alloc::{AllocError, Global};

/// What is found in files: the greatest exit status, and their results, in order.
#[derive(Drop)]
pub struct Found {
    pub(crate) status: u8,
    pub(crate) findings: Vec<Finding>,
}

impl Found {
    /// What is found in no file.
    pub(crate) fn new(alloc: Global) -> Found
        ensures status { result.status ≡ 0 }
        ensures findings { result.findings.items ≡ [] }
    {
        Found {
            status: 0,
            findings: Vec::new(alloc),
        }
    }

    /// One result, with this status.
    pub(crate) fn one(alloc: Global, status: u8, finding: Finding) -> Result<Found, AllocError>
        ensures status { IfOk result (λ found. found.status ≡ status) }
        ensures findings { IfOk result (λ found. found.findings.items ≡ finding ∷ []) }
    {
        Ok(Found {
            status,
            findings: only(alloc, finding)?,
        })
    }

    /// Adds what is found in one file more.
    pub(crate) fn add(&mut self, mut found: Found) -> Result<(), AllocError>
        ensures status { OnOk result (self.new.status ≡ max self.old.status found.status) }
        ensures findings { OnOk result
            (self.new.findings.items ≡ self.old.findings.items ++ found.findings.items) }
    {
        if self.status < found.status {
            self.status = found.status;
        }
        self.findings.append(&mut found.findings)
    }
}

/// A list of one result.
pub(crate) fn only(alloc: Global, finding: Finding) -> Result<Vec<Finding>, AllocError>
    ensures { IfOk result (λ list. list.items ≡ finding ∷ []) }
{
    let mut list = Vec::new(alloc);
    list.push(finding)?;
    Ok(list)
}
