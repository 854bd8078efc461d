//! The text that steps make of another.

ghost use Rattle.std.specs.Prelude.{◌≡◌, ◌++◌, ◌∷◌, [], IfOk, OnOk};
ghost use Rattle.mend_edits.specs.Patch.{bytes_by, ended, left_by, patched};

use crate::step::Step;
use model::items::Items;
use std::alloc::{AllocError, Global};
use text::cut::Lines;

/// The bytes that the steps make of a text. Each line ends with LF, the last one too.
///
/// # Errors
///
/// When memory runs out.
pub fn patch(alloc: Global, text: &[u8], steps: &[Step]) -> Result<Items<u8>, AllocError>
    ensures { IfOk result (λ bytes. bytes ≡ patched text.now steps.now) }
{
    let mut left = Lines::of(text);
    let mut bytes = Vec::new(alloc);
    for step in steps {
        write_step(&mut bytes, &mut left, step)?;
    }
    Ok(Items::of(bytes))
}

/// Adds what a step writes, where these lines are left.
fn write_step(bytes: &mut Vec<u8>, left: &mut Lines<'_>, step: &Step) -> Result<(), AllocError>
    ensures bytes { OnOk result (bytes.new.items ≡ bytes.old.items ++ bytes_by step.now left.old) }
    ensures left { OnOk result (left.new ≡ left_by step.now left.old) }
{
    match step {
        Step::Keep => match left.next() {
            Some(line) => write_line(bytes, line),
            None => Ok(()),
        },
        Step::Delete => {
            let _line = left.next();
            Ok(())
        }
        Step::Insert(line) => write_line(bytes, line.as_slice()),
    }
}

/// Adds a line and its LF.
pub(crate) fn write_line(bytes: &mut Vec<u8>, line: &[u8]) -> Result<(), AllocError>
    ensures { OnOk result (bytes.new.items ≡ bytes.old.items ++ ended line.now) }
{
    bytes.extend_from_slice(line)?;
    bytes.push(b'\n')?;
    Ok(())
}
