//! The matches of a command line.

ghost use Rattle.std.specs.Prelude.{◌≡◌, map, IfErr, IfOk};
ghost use Rattle.clap.specs.Words.{kind_of, subcommand_rows_of};
ghost use Rattle.cli.specs.Matched.{IsMatched, IsMetBy, IsUnmatched};

use crate::program::program;
use clap::ArgMatches;
use clap::error::ErrorKind;
use std::alloc::{AllocError, Global};
use std::convert::AsStr;

/// Why words have no matches.
#[derive(Drop)]
pub(crate) enum Unmatched {
    /// They ask which program this is.
    Version,
    /// They ask for help: its text.
    Help(String),
    /// They are wrong: the text for the user.
    Usage(String),
    /// A growth was refused.
    Memory,
}

impl From<AllocError> for Unmatched {
    ghost use Rattle.cli.specs.declared.parsing.Unmatched.TheVariants.{Memory};

    ghost from_gives = { λ _ unmatched. unmatched ≡ Memory };

    fn from(_refused: AllocError) -> Unmatched {
        Unmatched::Memory
    }
}

/// The matches of the words of a command line, without the program's own name.
///
/// # Errors
///
/// `Version` or `Help` where they ask for it, `Usage` where they are wrong, `Memory` when memory runs
/// out.
pub(crate) fn matches_of<'a, S: AsStr>(
    alloc: Global,
    words: &'a [S],
) -> Result<ArgMatches<'a>, Unmatched>
    ensures matched { IfOk result (λ matches.
        IsMatched (map S.text words.entry.now) (subcommand_rows_of matches)) }
    ensures unmatched { IfErr result (IsUnmatched (map S.text words.entry.now)) }
{
    let mut program = program(alloc)?;
    match program.try_get_matches_from_mut(words) {
        Ok(matches) => Ok(matches),
        Err(error) => Err(unmatched_by(alloc, &error)),
    }
}

/// Why words have no matches that meet with an error.
fn unmatched_by(alloc: Global, error: &clap::Error) -> Unmatched
    ensures { IsMetBy (kind_of error.now) result }
{
    let kind = error.kind();
    match kind {
        ErrorKind::DisplayVersion => Unmatched::Version,
        ErrorKind::OutOfMemory => Unmatched::Memory,
        _ => match error.to_string(alloc) {
            Ok(text) if kind == ErrorKind::DisplayHelp => Unmatched::Help(text),
            Ok(text) => Unmatched::Usage(text),
            Err(_) => Unmatched::Memory,
        },
    }
}
