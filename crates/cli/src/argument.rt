//! Arguments in `clap`.

ghost use Rattle.std.specs.Prelude.{◌≡◌, false};
ghost use Rattle.clap.specs.Words.{rule_of};
ghost use Rattle.cli.specs.Program.{flag, value_argument, value_option, values_argument};
ghost use Rattle.cli.specs.Table.{rule_for};

use clap::builder::ValueParser;
use clap::{Arg, ArgAction};
use std::alloc::Global;

/// An argument of a command: its name, and what it is in the texts of help.
#[derive(Clone, Copy)]
pub(crate) enum Argument<'a> {
    /// The name of a file, which has to be there.
    File(&'a str, &'a str),
    /// Names of files, of which there has to be one.
    Files(&'a str, &'a str),
    /// Names of files, of which there needn't be any.
    AnyFiles(&'a str, &'a str),
    /// `--NAME`
    Flag(&'a str, &'a str),
    /// `--NAME WORD`
    Choice(&'a str, &'a str),
    /// `--NAME VALUE`: the name of the value, and that of the option.
    Value(&'a str, &'a str, &'a str),
    /// `--NAME N`, a number from 1 up to the most.
    Number(&'a str, i64, &'a str),
    /// The same, which has to be there.
    WantedNumber(&'a str, i64, &'a str),
    /// `--NAME N`, any number of 64 bits.
    AnyNumber(&'a str, &'a str),
}

impl<'a> Argument<'a> {
    /// The name of an option whose value is a number.
    pub(crate) fn numbered(&self) -> Option<&'a str> {
        match self {
            Argument::Number(name, _, _) => Some(*name),
            Argument::WantedNumber(name, _, _) => Some(*name),
            Argument::AnyNumber(name, _) => Some(*name),
            _ => None,
        }
    }
}

/// An argument in `clap`.
pub(crate) fn arg_of<'a>(alloc: Global, argument: Argument<'a>) -> Arg<'a>
    ensures rule { rule_of result ≡ rule_for argument.entry }
    ensures local { result.global ≡ false }
{
    match argument {
        Argument::File(id, help) => valued(alloc, id, help).required(true),
        Argument::Files(id, help) => several(alloc, id, help).required(true),
        Argument::AnyFiles(id, help) => several(alloc, id, help),
        Argument::Flag(name, help) => flag(alloc, name, help),
        Argument::Choice(name, help) => option(alloc, name, name, ValueParser::String).help(help),
        Argument::Value(id, name, help) => option(alloc, id, name, ValueParser::String).help(help),
        Argument::Number(name, most, help) => {
            option(alloc, name, name, ValueParser::Signed(1, most)).help(help)
        }
        Argument::WantedNumber(name, most, help) => {
            option(alloc, name, name, ValueParser::Signed(1, most))
                .help(help)
                .required(true)
        }
        Argument::AnyNumber(name, help) => {
            option(alloc, name, name, ValueParser::Unsigned(0, u64::MAX)).help(help)
        }
    }
}

/// One with a value.
fn valued<'a>(alloc: Global, id: &'a str, help: &'a str) -> Arg<'a>
    ensures rule { rule_of result ≡ value_argument id.entry.now }
    ensures local { result.global ≡ false }
{
    Arg::new(alloc, id).action(ArgAction::Set).help(help)
}

/// One with a value or more.
fn several<'a>(alloc: Global, id: &'a str, help: &'a str) -> Arg<'a>
    ensures rule { rule_of result ≡ values_argument id.entry.now }
    ensures local { result.global ≡ false }
{
    Arg::new(alloc, id)
        .action(ArgAction::Append)
        .num_args(1..)
        .help(help)
}

/// A flag.
fn flag<'a>(alloc: Global, name: &'a str, help: &'a str) -> Arg<'a>
    ensures rule { rule_of result ≡ flag name.entry.now }
    ensures local { result.global ≡ false }
{
    Arg::new(alloc, name)
        .long(name)
        .action(ArgAction::SetTrue)
        .help(help)
}

/// An option with a value.
fn option<'a>(alloc: Global, id: &'a str, name: &'a str, parser: ValueParser<'a>) -> Arg<'a>
    ensures rule { rule_of result ≡ value_option id.entry.now name.entry.now parser.entry }
    ensures local { result.global ≡ false }
{
    Arg::new(alloc, id)
        .action(ArgAction::Set)
        .long(name)
        .value_parser(parser)
}
