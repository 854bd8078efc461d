//! The words for how far a command has come.

ghost use Rattle.std.specs.Prelude.{◌≡◌, ◌++◌, decimal, IfOk, OnOk};
ghost use Rattle.report_progress.specs.Line.{grouped, line};

use crate::progress::Reached;
use itoa::Buffer;
use std::alloc::{AllocError, Global};

/// How far a command has come: `312 of 1,000`, or `12 events, 4,774 worlds`.
///
/// # Errors
///
/// When memory runs out.
pub fn line(alloc: Global, reached: Reached) -> Result<Vec<u8>, AllocError>
    ensures { IfOk result (λ bytes. bytes.items ≡ line reached) }
{
    let mut bytes = Vec::new(alloc);
    match reached {
        Reached::Of { done, all } => {
            push_number(&mut bytes, done as u64)?;
            bytes.extend_from_slice(b" of ")?;
            push_number(&mut bytes, all as u64)?;
        }
        Reached::Worlds { worlds, events } => {
            push_number(&mut bytes, events as u64)?;
            bytes.extend_from_slice(b" events, ")?;
            push_number(&mut bytes, worlds as u64)?;
            bytes.extend_from_slice(b" worlds")?;
        }
    }
    Ok(bytes)
}

/// Adds a number, its digits in groups of three.
fn push_number(bytes: &mut Vec<u8>, number: u64) -> Result<(), AllocError>
    ensures { OnOk result (bytes.new.items ≡ bytes.old.items ++ grouped (decimal number)) }
{
    let mut buffer = Buffer::new();
    push_digits(bytes, buffer.format(number).as_bytes())
}

/// Adds digits, in groups of three.
fn push_digits(bytes: &mut Vec<u8>, digits: &[u8]) -> Result<(), AllocError>
    ensures { OnOk result (bytes.new.items ≡ bytes.old.items ++ grouped digits.now) }
{
    let mut rest = digits;
    while let Some((digit, behind)) = rest.split_first() {
        bytes.push(*digit)?;
        if !behind.is_empty() && behind.len() % 3 == 0 {
            bytes.push(b',')?;
        }
        rest = behind;
    }
    Ok(())
}
