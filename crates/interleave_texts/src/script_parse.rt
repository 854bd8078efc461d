//! The text of a script.

ghost use Rattle.std.specs.Prelude.{◌≡◌, ◌≢◌, ◌↔◌, ◌≤◌, List, length, IfErr, IfOk, MatchResult};
ghost use Rattle.interleave_texts.specs.Meaning.{CancelsEarlier, IsFirstFault, IsScript};
ghost use Rattle.interleave_texts.specs.Script.{IsFaultOf, commands_after, script_in};

use crate::script_read::command_line;
use interleave::schedule::{ScheduleFault, ScheduleKind};
use model::history::Command;
use std::alloc::{AllocError, Global};
use text::cut::Lines;

/// Commands of a script, at most.
pub const MAX_COMMANDS: usize = 65_536;

/// The commands that the text of a script lists, in their order; an empty text lists none. Each
/// cancel names a request that stands before it.
///
/// # Errors
///
/// The first faulty line, with the least kind of what is wrong with it; `Memory` when memory runs
/// out.
pub fn parse_script(alloc: Global, text: &[u8]) -> Result<Vec<Command>, ScheduleFault>
    ensures listed { MatchResult result (λ commands. script_in text.now ≡ Ok commands.items)
        (IsFaultOf text.now) }
    ensures short { IfOk result (λ commands. length commands.items ≤ MAX_COMMANDS) }
    ensures cancels { IfOk result (λ commands. CancelsEarlier commands.items) }

    // What is read is what the text says, and a fault is where it first fails to say a script.
    ensures meaning { (commands : List Command)
        → (script_in text.now ≡ Ok commands) ↔ IsScript text.now commands }
    ensures fault { IfErr result (λ f. f.kind ≢ ScheduleKind.Memory → IsFirstFault text.now f) }
{
    match script_in(alloc, text) {
        Ok(Ok(commands)) => Ok(commands),
        Ok(Err(fault)) => Err(fault),
        Err(AllocError) => Err(ScheduleFault {
            line: 0,
            kind: ScheduleKind::Memory,
        }),
    }
}

/// The commands or the first fault.
fn script_in(alloc: Global, text: &[u8]) -> Result<Result<Vec<Command>, ScheduleFault>, AllocError>
    ensures { IfOk result
        (λ r. MatchResult r (λ commands. script_in text.now ≡ Ok commands.items)
        (λ fault. script_in text.now ≡ Err fault)) }
{
    let mut commands = Vec::new(alloc);
    let mut left = Lines::of(text);
    let mut line: u64 = 1;
    while let Some(raw) = left.next() {
        if let Err(kind) = add_line(&mut commands, raw)? {
            return Ok(Err(ScheduleFault { line, kind }));
        }
        line += 1;
    }
    Ok(Ok(commands))
}

/// Adds the command of a line.
fn add_line(
    commands: &mut Vec<Command>,
    line: &[u8],
) -> Result<Result<(), ScheduleKind>, AllocError>
    ensures { IfOk result (λ r. MatchResult r
        (λ _. commands_after commands.old.items line.now ≡ Ok commands.new.items)
        (λ kind. commands_after commands.old.items line.now ≡ Err kind)) }
{
    match command_line(commands.as_slice(), line) {
        Ok(Some(command)) => {
            if commands.len() >= MAX_COMMANDS {
                return Ok(Err(ScheduleKind::TooLong));
            }
            commands.push(command)?;
            Ok(Ok(()))
        }
        Ok(None) => Ok(Ok(())),
        Err(kind) => Ok(Err(kind)),
    }
}
