//! Lines of commands in their usual form, read in one pass: most lines of a script have it.

ghost use Rattle.std.specs.Prelude.{◌≡◌, ◌≤◌, [], IfSome, IsTrue, Ok, Some};
ghost use Rattle.interleave.specs.Usual.{TakesMajor, TakesNumber};
ghost use Rattle.interleave_texts.specs.Script.{cancel_line, command_line, interrupt_line};
ghost use Rattle.interleave_texts.specs.Script.{request_line};
ghost use Rattle.interleave_texts.specs.Usual.{Gives};

use crate::script_read::name_at;
use model::history::Command;
use model::status::Major;
use text::head::{Numbered, after_word, number_at_head};

/// The command that a line gives after these commands, if it has the usual form: a word and its
/// operands, each after one space, with numbers in decimal digits and in range.
pub(crate) fn usual_line(commands: &[Command], line: &[u8]) -> Option<Command>
    ensures { IfSome result (λ c. command_line commands.now line.now ≡ Ok (Some c)) }
{
    if let Some(operands) = after_word(line, b"request") {
        return request(operands);
    }
    if let Some(operands) = after_word(line, b"cancel") {
        return cancel(commands, operands);
    }
    if let Some(operands) = after_word(line, b"interrupt") {
        return interrupt(operands);
    }
    None
}

/// `D MAJOR ARG`.
#[tactic(auto, using(crate::proofs::Usual::request_read))]
fn request(operands: &[u8]) -> Option<Command>
    ensures { IfSome result (λ c. Gives request_line operands.now c) }
{
    let device = byte(operands)?;
    let major = major(device.rest)?;
    let argument = number(major.rest)?;
    if !ends(argument.rest) {
        return None;
    }
    Some(Command::Request {
        device: device.number as u8,
        major: major.major,
        argument: argument.number,
    })
}

/// `K LEVEL`.
#[tactic(auto, using(crate::proofs::Usual::cancel_read))]
fn cancel(commands: &[Command], operands: &[u8]) -> Option<Command>
    ensures { IfSome result (λ c. Gives (cancel_line commands.now) operands.now c) }
{
    let count = number(operands)?;
    let level = byte(count.rest)?;
    if !ends(level.rest) {
        return None;
    }
    let name = name_at(commands, count.number)?;
    Some(Command::Cancel {
        name,
        level: level.number as u8,
    })
}

/// `D`.
#[tactic(auto, using(crate::proofs::Usual::interrupt_read))]
fn interrupt(operands: &[u8]) -> Option<Command>
    ensures { IfSome result (λ c. Gives interrupt_line operands.now c) }
{
    let device = byte(operands)?;
    if !ends(device.rest) {
        return None;
    }
    Some(Command::Interrupt {
        device: device.number as u8,
    })
}

/// Whether nothing stands behind the operands that were read.
fn ends(rest: &[u8]) -> bool
    ensures { IsTrue result → rest.now ≡ [] }
{
    rest.is_empty()
}

/// A space and a number of 8 bits, and what stands behind them.
fn byte(bytes: &[u8]) -> Option<Numbered<'_>>
    ensures number { IfSome result
        (λ found. TakesNumber bytes.now found.number found.rest.now) }
    ensures few { IfSome result (λ found. found.number ≤ 255) }
{
    let found = number(bytes)?;
    if found.number > 255 {
        return None;
    }
    Some(found)
}

/// A space and a number that isn't far out of any range, and what stands behind them.
#[tactic(auto, using(interleave::proofs::Usual::takes_number))]
fn number(bytes: &[u8]) -> Option<Numbered<'_>>
    ensures { IfSome result (λ found. TakesNumber bytes.now found.number found.rest.now) }
{
    let (space, digits) = bytes.split_first()?;
    if *space != b' ' {
        return None;
    }
    let found = number_at_head(digits)?;
    Some(found)
}

/// A major function, and what stands behind its word.
#[derive(Drop)]
struct Majored<'a> {
    major: Major,
    rest: &'a [u8],
}

/// A space and the word of a major function, and what stands behind them.
#[tactic(auto, using(interleave::proofs::Usual::major_taken))]
fn major(bytes: &[u8]) -> Option<Majored<'_>>
    ensures { IfSome result (λ found. TakesMajor bytes.now found.major found.rest.now) }
{
    if let Some(rest) = after_word(bytes, b" READ") {
        return Some(Majored {
            major: Major::Read,
            rest,
        });
    }
    if let Some(rest) = after_word(bytes, b" WRITE") {
        return Some(Majored {
            major: Major::Write,
            rest,
        });
    }
    if let Some(rest) = after_word(bytes, b" CONTROL") {
        return Some(Majored {
            major: Major::Control,
            rest,
        });
    }
    None
}
