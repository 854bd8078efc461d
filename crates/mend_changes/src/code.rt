//! Edits of a routine's code.

ghost use Rattle.std.specs.Prelude.{◌≡◌, ◌++◌, [], ◌<◌, ◌≤◌, Some, length, slice_get, OnOk, IfOk};
ghost use Rattle.mend_changes.specs.Edited.{all_shifted, code_edited, relabelled, with_label};
ghost use Rattle.mend_changes.specs.Edited.{deleted, inserted, moved_by, put_earlier, put_later};
ghost use Rattle.mend_changes.specs.Given.{as_option};

use crate::edit::{Change, Landing};
use crate::shift::Shift;
use driver_set::Instr;
use std::alloc::AllocError;

/// A jump that leads to another label.
pub fn with_label(instr: Instr, label: u16) -> Instr
    ensures { result ≡ with_label instr label }
{
    match instr {
        Instr::JumpIfZero(register, _) => Instr::JumpIfZero(register, label),
        Instr::JumpIfLess(one, other, _) => Instr::JumpIfLess(one, other, label),
        Instr::Jump(_) => Instr::Jump(label),
        Instr::Remove(register, queue, _) => Instr::Remove(register, queue, label),
        Instr::Disarm(register, _) => Instr::Disarm(register, label),
        Instr::IfCancel(register, _) => Instr::IfCancel(register, label),
        Instr::Take(register, _) => Instr::Take(register, label),
        Instr::IfPending(register, _) => Instr::IfPending(register, label),
        other => other,
    }
}

/// An instruction with its label shifted.
fn relabelled(instr: Instr, shift: Shift) -> Instr
    ensures { result ≡ relabelled shift instr }
{
    match instr.label() {
        Some(label) => with_label(instr, shift.of(label)),
        None => instr,
    }
}

/// Adds instructions with their labels shifted.
fn add_shifted(code: &mut Vec<Instr>, added: &[Instr], shift: Shift) -> Result<(), AllocError>
    ensures { OnOk result (code.new.items ≡ code.old.items ++ all_shifted shift added.now) }
{
    for instr in added {
        code.push(relabelled(*instr, shift))?;
    }
    Ok(())
}

/// Writes what a change makes of a routine's code, and answers whether it makes anything: it is one
/// of code, at a place that is there.
///
/// # Errors
///
/// When memory runs out.
pub fn edit_code(
    code: &[Instr],
    at: u16,
    change: &Change,
    made: &mut Vec<Instr>,
) -> Result<bool, AllocError>
    ensures { IfOk result
        (λ done. as_option done made.new.items ≡ code_edited code.now at change.now) }
{
    made.clear();
    let place = at as usize;
    match *change {
        Change::Insert(instr, landing) if place <= code.len() => {
            insert(code, at, instr, landing, made)?;
        }
        Change::Delete if place < code.len() => delete(code, at, made)?,
        Change::Replace(instr) if place < code.len() => {
            made.extend_from_slice(code)?;
            made[place] = instr;
        }
        Change::Move(to, landing) if place < code.len() && to as usize <= code.len() => {
            put(code, at, to, landing, made)?;
        }
        _ => return Ok(false),
    }
    Ok(true)
}

/// Adds the code with an instruction put before a position.
fn insert(
    code: &[Instr],
    at: u16,
    instr: Instr,
    landing: Landing,
    made: &mut Vec<Instr>,
) -> Result<(), AllocError>
    requires within { at ≤ length code.now }
    requires empty { made.old.items ≡ [] }
    ensures { OnOk result (made.new.items ≡ inserted at instr landing code.now) }
{
    let shift = Shift::Opened(at, landing);
    let (before, behind) = code.split_at(at as usize);
    add_shifted(made, before, shift)?;
    made.push(instr)?;
    add_shifted(made, behind, shift)
}

/// Adds the code with the instruction at a position taken out.
fn delete(code: &[Instr], at: u16, made: &mut Vec<Instr>) -> Result<(), AllocError>
    requires within { at < length code.now }
    requires empty { made.old.items ≡ [] }
    ensures { OnOk result (made.new.items ≡ deleted at code.now) }
{
    let shift = Shift::Closed(at);
    add_shifted(made, &code[..at as usize], shift)?;
    add_shifted(made, &code[at as usize + 1..], shift)
}

/// Adds the code with the instruction at a position put before another one.
fn put(
    code: &[Instr],
    at: u16,
    to: u16,
    landing: Landing,
    made: &mut Vec<Instr>,
) -> Result<(), AllocError>
    requires within { at < length code.now }
    requires there { to ≤ length code.now }
    requires empty { made.old.items ≡ [] }
    ensures { OnOk result
        (moved_by (slice_get code.now at) at to landing code.now ≡ Some made.new.items) }
{
    let Some(instr) = code.get(at as usize) else {
        return Ok(());
    };
    let shift = Shift::Moved(at, to, landing);
    if at < to {
        put_later(code, at, to, *instr, shift, made)
    } else {
        put_earlier(code, at, to, *instr, shift, made)
    }
}

/// Adds the code with an instruction, which stands at a position, put before one behind it.
fn put_later(
    code: &[Instr],
    at: u16,
    to: u16,
    instr: Instr,
    shift: Shift,
    made: &mut Vec<Instr>,
) -> Result<(), AllocError>
    requires later { at < to }
    requires there { to ≤ length code.now }
    requires empty { made.old.items ≡ [] }
    ensures { OnOk result (made.new.items ≡ put_later shift at to instr code.now) }
{
    let (from, to) = (at as usize, to as usize);
    add_shifted(made, &code[..from], shift)?;
    add_shifted(made, &code[from + 1..to], shift)?;
    made.push(relabelled(instr, shift))?;
    add_shifted(made, &code[to..], shift)
}

/// Adds the code with an instruction, which stands at a position, put before one before it.
fn put_earlier(
    code: &[Instr],
    at: u16,
    to: u16,
    instr: Instr,
    shift: Shift,
    made: &mut Vec<Instr>,
) -> Result<(), AllocError>
    requires within { at < length code.now }
    requires earlier { to ≤ at }
    requires empty { made.old.items ≡ [] }
    ensures { OnOk result (made.new.items ≡ put_earlier shift at to instr code.now) }
{
    let (from, to) = (at as usize, to as usize);
    add_shifted(made, &code[..to], shift)?;
    made.push(relabelled(instr, shift))?;
    add_shifted(made, &code[to..from], shift)?;
    add_shifted(made, &code[from + 1..], shift)
}
