//! Lines that are listed more than once: those between `repeat` and `end`.

ghost use Rattle.std.specs.Prelude.{◌≡◌, [], OnOk};
ghost use Rattle.scenario_text.specs.Repeating.{block_in, ending, opening, with_line};

use interleave::schedule::ScheduleKind;
use scenario_names::operands::number_of;
use scenario_steps::scenario::MAX_STEPS;
use std::alloc::{AllocError, Global};
use std::marker::Model;
use text::class::is;
use text::piece::Piece;
use text::token::Tokens;

/// What a line is to those round it.
#[derive(Clone, Copy)]
pub enum Block {
    /// One of the lines.
    Plain,
    /// It opens a block, of which the lines are listed so often.
    Opens(u64),
    /// It ends the block.
    Ends,
}

/// A line with its number.
#[derive(Drop)]
pub struct Numbered<'a> {
    pub number: u64,
    pub line: Piece<'a>,
}

/// A block that is open.
#[derive(Drop)]
pub struct Open<'a> {
    /// How often its lines are listed.
    times: u64,
    /// Those of them so far that say something.
    lines: Vec<Numbered<'a>>,
}

impl<'a> Model for Open<'a> {
    ghost use Rattle.scenario_text.specs.Repeating.{Open};

    ghost Value = { Open };

    ghost view = { λ o. record { times = o.times; lines = o.lines.items } };
}

impl<'a> Open<'a> {
    /// A block without lines.
    pub fn new(alloc: Global, times: u64) -> Open<'a>
        ensures { result ≡ record { times = times; lines = [] } }
    {
        Open {
            times,
            lines: Vec::new(alloc),
        }
    }

    /// How often its lines are listed.
    pub fn times(&self) -> u64
        ensures { result ≡ self.now.times }
    {
        self.times
    }

    /// Its lines.
    pub fn lines(&self) -> &[Numbered<'a>]
        ensures { result.now ≡ self.now.lines }
    {
        self.lines.as_slice()
    }

    /// Adds a line.
    ///
    /// # Errors
    ///
    /// When memory runs out.
    pub fn add(&mut self, number: u64, line: &'a [u8]) -> Result<(), AllocError>
        ensures { OnOk result (self.new ≡ with_line self.old number line.now) }
    {
        self.lines.push(Numbered {
            number,
            line: Piece::of(line),
        })?;
        Ok(())
    }
}

/// What a line is to those round it, by its tokens.
///
/// # Errors
///
/// The kind of the first token that can't stand there.
pub(crate) fn block_in(mut tokens: Tokens) -> Result<Block, ScheduleKind>
    ensures { result ≡ block_in tokens.entry }
{
    match tokens.next() {
        Some(word) => {
            if is(word, b"end") {
                Ok(ending(tokens))
            } else if is(word, b"repeat") {
                opening(tokens)
            } else {
                Ok(Block::Plain)
            }
        }
        None => Ok(Block::Plain),
    }
}

/// What a line is that begins with `end`, by what stands behind that.
fn ending(mut operands: Tokens) -> Block
    ensures { result ≡ ending operands.entry }
{
    match operands.next() {
        None => Block::Ends,
        Some(_) => Block::Plain,
    }
}

/// What a line is that begins with `repeat`, by what stands behind that.
fn opening(mut operands: Tokens) -> Result<Block, ScheduleKind>
    ensures { result ≡ opening operands.entry }
{
    match (operands.next(), operands.next()) {
        (Some(count), None) => {
            let times = number_of(1, MAX_STEPS as u64, count)?;
            Ok(Block::Opens(times))
        }
        _ => Ok(Block::Plain),
    }
}
