//! Edits of whole lines of a text, by their numbers, and what they make of it.

ghost use Rattle.std.specs.Prelude.{◌≡◌, ◌++◌, IfOk, OnOk, drop, take};
ghost use Rattle.mend_edits.specs.Patch.{ended};
ghost use Rattle.mend_edits.specs.Lines.{all_ended, edited, left_by, made_by};

use crate::Change;
use model::items::Items;
use std::alloc::{AllocError, Global};
use text::cut::Lines;

/// Lines of a text that are replaced.
#[derive(Drop)]
pub struct LineEdit {
    /// The number of the first, from 1.
    pub start: u64,
    /// The number of the one behind the last.
    pub end: u64,
    /// What stands there instead: lines, each with its LF.
    pub text: String,
}

/// Changes of a text as edits, if what they put in is UTF-8.
///
/// # Errors
///
/// When memory runs out.
pub fn edits_of(alloc: Global, changes: &[Change]) -> Result<Option<Items<LineEdit>>, AllocError> {
    let mut edits = Vec::new(alloc);
    for change in changes {
        let Some(text) = text_of(alloc, change.lines.as_slice())? else {
            return Ok(None);
        };
        let start = (change.before as u64).saturating_add(1);
        edits.push(LineEdit {
            start,
            end: start.saturating_add(change.taken as u64),
            text,
        })?;
    }
    Ok(Some(Items::of(edits)))
}

/// Lines, each with its LF, if they are UTF-8.
fn text_of(alloc: Global, lines: &[Items<u8>]) -> Result<Option<String>, AllocError> {
    let mut bytes = Vec::new(alloc);
    for line in lines {
        add_line(&mut bytes, line.as_slice())?;
    }
    match str::from_utf8(bytes.as_slice()) {
        Ok(text) => Ok(Some(String::from_str(alloc, text)?)),
        Err(_) => Ok(None),
    }
}

/// What edits make of a text, one after another. Each line ends with LF, the last one too.
///
/// # Errors
///
/// When memory runs out.
pub fn edited(alloc: Global, text: &[u8], edits: &[LineEdit]) -> Result<Vec<u8>, AllocError>
    ensures { IfOk result (λ made. made.items ≡ edited text.now edits.now) }
{
    let mut left = Lines::of(text);
    let mut made = Vec::new(alloc);
    let mut next = 1;
    for edit in edits {
        follow(&mut made, &mut left, next, edit)?;
        next = edit.end;
    }
    keep_all(&mut made, &mut left)?;
    Ok(made)
}

/// Follows an edit, where the next line of the text is that of a number.
fn follow(
    made: &mut Vec<u8>,
    left: &mut Lines<'_>,
    next: u64,
    edit: &LineEdit,
) -> Result<(), AllocError>
    ensures made { OnOk result (made.new.items ≡ made.old.items ++ made_by next edit.now left.old) }
    ensures left { OnOk result (left.new ≡ left_by next edit.now left.old) }
{
    keep(made, left, edit.start.saturating_sub(next))?;
    made.extend_from_slice(edit.text.as_bytes())?;
    pass(left, edit.end.saturating_sub(edit.start));
    Ok(())
}

/// Adds so many lines, or all that are left.
fn keep(made: &mut Vec<u8>, left: &mut Lines<'_>, count: u64) -> Result<(), AllocError>
    ensures made { OnOk result
        (made.new.items ≡ made.old.items ++ all_ended (take count left.old)) }
    ensures left { OnOk result (left.new ≡ drop count left.old) }
{
    let mut more = count;
    while more > 0 {
        let Some(line) = left.next() else {
            return Ok(());
        };
        add_line(made, line)?;
        more -= 1;
    }
    Ok(())
}

/// Passes so many lines, or all that are left.
fn pass(left: &mut Lines<'_>, count: u64)
    ensures { left.new ≡ drop count left.old }
{
    let mut more = count;
    while more > 0 {
        if left.next().is_none() {
            return;
        }
        more -= 1;
    }
}

/// Adds all lines that are left.
fn keep_all(made: &mut Vec<u8>, left: &mut Lines<'_>) -> Result<(), AllocError>
    ensures { OnOk result (made.new.items ≡ made.old.items ++ all_ended left.old) }
{
    while let Some(line) = left.next() {
        add_line(made, line)?;
    }
    Ok(())
}

/// Adds a line and its LF.
fn add_line(made: &mut Vec<u8>, line: &[u8]) -> Result<(), AllocError>
    ensures { OnOk result (made.new.items ≡ made.old.items ++ ended line.now) }
{
    made.extend_from_slice(line)?;
    made.push(b'\n')?;
    Ok(())
}
