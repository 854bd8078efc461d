//! The program's command line in `clap`, made of the table of its commands.

ghost use Rattle.std.specs.Prelude.{◌≡◌, false, map, IfOk};
ghost use Rattle.clap.specs.Words.{app_of, new_app, with_rule};
ghost use Rattle.clap.specs.declared.builder.command.Command.TheViews.{out-Command as fields_of};
ghost use Rattle.cli.specs.Program.{bare_program, program, with_all, with_command};
ghost use Rattle.cli.specs.Table.{command_for, rule_for};

use crate::argument::{Argument, arg_of};
use crate::table::{COMMANDS, Entry};
use clap::Command;
use std::alloc::{AllocError, Global};

/// The program's name, in the texts of usage and help.
pub(crate) const NAME: &str = "drvhost";

/// The program's version, in the texts of usage and help.
const VERSION: &str = "1.0.0";

/// The program's command line.
pub(crate) fn program<'a>(alloc: Global) -> Result<Command<'a>, AllocError>
    ensures { IfOk result (λ command. app_of command ≡ program) }
{
    let bare = bare_program(alloc)?;
    with_commands(alloc, bare, &COMMANDS)
}

/// The program without its commands.
fn bare_program<'a>(alloc: Global) -> Result<Command<'a>, AllocError>
    ensures { IfOk result (λ command. app_of command ≡ bare_program) }
{
    let program = Command::new(alloc, NAME).bin_name(NAME)?;
    Ok(
        program
            .version(VERSION)
            .no_binary_name(true)
            .subcommand_required(true),
    )
}

/// A program with more commands.
fn with_commands<'a>(
    alloc: Global,
    program: Command<'a>,
    entries: &[Entry<'a>],
) -> Result<Command<'a>, AllocError>
    ensures { IfOk result (λ more.
        app_of more
        ≡ with_all with_command (app_of program.entry) (map command_for entries.now)) }
{
    let mut program = program;
    for entry in entries {
        program = program.subcommand(command_of(alloc, entry)?)?;
    }
    Ok(program)
}

/// A command.
pub(crate) fn command_of<'a>(alloc: Global, entry: &Entry<'a>) -> Result<Command<'a>, AllocError>
    ensures app { IfOk result (λ command. app_of command ≡ command_for entry.now) }
    ensures local { IfOk result (λ command. (fields_of command).has_globals ≡ false) }
{
    with_arguments(alloc, bare_command(alloc, entry), entry.arguments)
}

/// A command without its arguments.
fn bare_command<'a>(alloc: Global, entry: &Entry<'a>) -> Command<'a>
    ensures app { app_of result ≡ new_app entry.now.name.now }
    ensures local { (fields_of result).has_globals ≡ false }
{
    let command = Command::new(alloc, entry.name).about(entry.about);
    match entry.usage {
        Some(usage) => command.override_usage(usage),
        None => command,
    }
}

/// A command with more arguments.
fn with_arguments<'a>(
    alloc: Global,
    command: Command<'a>,
    arguments: &[Argument<'a>],
) -> Result<Command<'a>, AllocError>
    requires local { (fields_of command).has_globals ≡ false }
    ensures app { IfOk result (λ more.
        app_of more
        ≡ with_all with_rule (app_of command.entry) (map rule_for arguments.now)) }
    ensures local { IfOk result (λ more. (fields_of more).has_globals ≡ false) }
{
    let mut command = command;
    for argument in arguments {
        command = command.arg(arg_of(alloc, *argument))?;
    }
    Ok(command)
}
