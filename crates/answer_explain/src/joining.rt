//! Texts behind one another.

ghost use Rattle.std.specs.Prelude.{◌≡◌, ◌++◌, IfOk};

use drvhost_devices::told::Told;
use std::alloc::{AllocError, Global};

/// Two texts as one.
pub(crate) fn joined(alloc: Global, first: &[u8], second: &[u8]) -> Result<Vec<u8>, AllocError>
    ensures { IfOk result (λ both. both.items ≡ first.now ++ second.now) }
{
    let mut both = Vec::new(alloc);
    both.extend_from_slice(first)?;
    both.extend_from_slice(second)?;
    Ok(both)
}

/// An answer with words behind its output.
pub(crate) fn with_words(alloc: Global, told: Told, words: &[u8]) -> Result<Told, AllocError>
    ensures { IfOk result (λ all. all ≡ record told { output = told.output ++ words.now }) }
{
    let output = joined(alloc, told.output(), words)?;
    Ok(told.with_output(output))
}
