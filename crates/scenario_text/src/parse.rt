//! The text of a scenario.

ghost use Rattle.std.specs.Prelude.{◌≡◌, ◌+◌, ◌++◌, ◌<◌, ◌≤◌, ◌^◌, IfOk, IfSome, MatchResult, OnOk};
ghost use Rattle.std.specs.Prelude.{Ok, Err, Some, length, option_to_list};
ghost use Rattle.text.specs.Cut.{tokens_of};
ghost use Rattle.model.specs.declared.limits.TheConstants.{MAX_THREADS};
ghost use Rattle.scenario_text.specs.Repeating.{kept};
ghost use Rattle.scenario_text.specs.Usual.{exactly};
ghost use Rattle.scenario_text.specs.Listing.{IsFaultOf, closed, ends, given_after, lengthened};
ghost use Rattle.scenario_text.specs.Listing.{listing, nothing, opens, repeated};
ghost use Rattle.scenario_text.specs.Listing.{scenario_in, with_line, with_lines, with_tokens};

use crate::quick::{SaidUsually, usual_line};
use crate::reading::{Said, line_of};
use crate::repeating::{Block, Numbered, Open, block_in};
use interleave::opening::opening_of;
use interleave::schedule::{ScheduleFault, ScheduleKind};
use scenario_names::issued::Issued;
use scenario_names::names::Names;
use scenario_steps::scenario::{MAX_STEPS, Scenario, Step};
use scenario_steps::steps::Steps;
use std::alloc::{AllocError, Global};
use std::marker::Model;
use text::cut::{Lines, is_clean};
use text::piece::Piece;
use text::token::Tokens;

/// The fewest bytes that a line with a step has, with the one that ends it.
const SHORTEST: usize = 6;

/// The scenario that a text lists, where the set's devices have these names.
///
/// The first line with a token gives the threads, and each later line a step or an expectation.
///
/// # Errors
///
/// The first faulty line, with the kind of its first token that can't stand there; `Memory` when
/// memory runs out.
pub fn parse_scenario(
    alloc: Global,
    names: &Names<'_>,
    text: &[u8],
) -> Result<Scenario, ScheduleFault>
    ensures listed { MatchResult result
        (λ s. scenario_in names.now text.now
        ≡ Ok (record { threads = s.threads; steps = s.steps }))
        (IsFaultOf names.now text.now) }
    ensures some { IfOk result (λ s. 1 ≤ s.threads) }
    ensures few { IfOk result (λ s. s.threads ≤ MAX_THREADS) }
{
    match scenario_in(alloc, names, text) {
        Ok(Ok(scenario)) => Ok(scenario),
        Ok(Err(fault)) => Err(fault),
        Err(AllocError) => Err(ScheduleFault {
            line: 0,
            kind: ScheduleKind::Memory,
        }),
    }
}

/// The scenario or its first fault.
fn scenario_in(
    alloc: Global,
    names: &Names<'_>,
    text: &[u8],
) -> Result<Result<Scenario, ScheduleFault>, AllocError>
    ensures { IfOk result (λ r. MatchResult r
        (λ s. scenario_in names.now text.now
        ≡ Ok (record { threads = s.threads; steps = s.steps })
        × (1 ≤ s.threads) × (s.threads ≤ MAX_THREADS))
        (λ fault. scenario_in names.now text.now ≡ Err fault)) }
{
    let opening = match opening_of(text) {
        Ok(opening) => opening,
        Err(fault) => return Ok(Err(fault)),
    };
    let left = Lines::of(opening.rest);
    match list(alloc, names, left, opening.line + 1, most_steps(text))? {
        Ok(steps) => Ok(Ok(Scenario {
            threads: opening.threads,
            steps,
        })),
        Err(fault) => Ok(Err(fault)),
    }
}

/// How many steps a text has at most, but for those of lines that are listed more than once.
fn most_steps(text: &[u8]) -> usize {
    (text.len() / SHORTEST + 1).min(MAX_STEPS)
}

/// The steps of lines of which the first has this number, with room for so many from the start.
fn list(
    alloc: Global,
    names: &Names<'_>,
    mut left: Lines<'_>,
    first: u64,
    room: usize,
) -> Result<Result<Steps, ScheduleFault>, AllocError>
    requires { first + length left < 2 ^ 64 }
    ensures { IfOk result (λ r. MatchResult r
        (λ steps. listing names.now nothing first left.entry ≡ Ok steps)
        (λ fault. listing names.now nothing first left.entry ≡ Err fault)) }
{
    let mut given = Given::new(alloc, room)?;
    let mut line = first;
    while let Some(raw) = left.next() {
        if let Err(kind) = given.add_line(alloc, names, line, raw)? {
            return Ok(Err(ScheduleFault { line, kind }));
        }
        line += 1;
    }
    if given.block.is_some() {
        return Ok(Err(ScheduleFault {
            line,
            kind: ScheduleKind::UnknownWord,
        }));
    }
    Ok(Ok(given.steps))
}

/// What lines have given so far.
#[derive(Drop)]
struct Given<'a> {
    /// The names of the packets that they issue.
    packets: Issued<'a>,
    steps: Steps,
    /// The block that is open, if one is.
    block: Option<Open<'a>>,
}

impl<'a> Model for Given<'a> {
    ghost use Rattle.std.specs.Prelude.{◌≤◌, length};
    ghost use Rattle.scenario_text.specs.Listing.{Given};

    ghost Value = { Given };

    ghost view = { λ g. record {
      packets = g.packets;
      steps = g.steps;
      block = g.block;
    } };

    ghost invariant = { λ g. length g.packets ≤ length g.steps };
}

impl<'a> Given<'a> {
    /// Nothing, with room for so many steps.
    fn new(alloc: Global, room: usize) -> Result<Given<'a>, AllocError>
        ensures { IfOk result (λ given. given ≡ nothing) }
    {
        Ok(Given {
            packets: Issued::new(alloc),
            steps: Steps::with_capacity(alloc, room)?,
            block: None,
        })
    }

    /// Adds what a line says.
    #[tactic(auto, using(crate::proofs::Usual::usual_given))]
    fn add_line(
        &mut self,
        alloc: Global,
        names: &Names<'_>,
        number: u64,
        line: &'a [u8],
    ) -> Result<Result<(), ScheduleKind>, AllocError>
        ensures { IfOk result (λ r. MatchResult r
            (λ _. given_after names.now self.old number line.now ≡ Ok self.new)
            (λ kind. given_after names.now self.old number line.now ≡ Err kind)) }
    {
        if let Some(said) = usual_line(names, &self.packets, line) {
            return self.add_usual(number, line, said);
        }
        if !is_clean(line) {
            return Ok(Err(ScheduleKind::Lex));
        }
        match block_in(Tokens::of(line)) {
            Ok(Block::Plain) => self.add_tokens(names, number, line),
            Ok(Block::Opens(times)) => Ok(self.open(alloc, times)),
            Ok(Block::Ends) => self.end(names),
            Err(kind) => Ok(Err(kind)),
        }
    }

    /// A block opens, where none is open.
    fn open(&mut self, alloc: Global, times: u64) -> Result<(), ScheduleKind>
        ensures { MatchResult result
            (λ _. opens self.old times self.old.block ≡ Ok self.new)
            (λ kind. opens self.old times self.old.block ≡ Err kind) }
    {
        if self.block.is_some() {
            return Err(ScheduleKind::UnknownWord);
        }
        self.block = Some(Open::new(alloc, times));
        Ok(())
    }

    /// The block ends: its lines, which are listed once, are listed as often as it says.
    fn end(&mut self, names: &Names<'_>) -> Result<Result<(), ScheduleKind>, AllocError>
        ensures { IfOk result (λ r. MatchResult r
            (λ _. ends names.now self.old self.old.block ≡ Ok self.new)
            (λ kind. ends names.now self.old self.old.block ≡ Err kind)) }
    {
        match self.block.take() {
            Some(open) => self.repeat(names, open.times().saturating_sub(1), open.lines()),
            None => Ok(Err(ScheduleKind::UnknownWord)),
        }
    }

    /// Adds what these lines say, so often.
    #[tactic(auto, using(crate::proofs::Blocks::repeated_on, crate::proofs::Blocks::repeated_stop, crate::proofs::Blocks::repeated_over))]
    fn repeat(
        &mut self,
        names: &Names<'_>,
        times: u64,
        lines: &[Numbered<'a>],
    ) -> Result<Result<(), ScheduleKind>, AllocError>
        ensures { IfOk result (λ r. MatchResult r
            (λ _. repeated names.now times self.old lines.now ≡ Ok self.new)
            (λ kind. repeated names.now times self.old lines.now ≡ Err kind)) }
    {
        let mut left = times;
        while left > 0 {
            if let Err(kind) = self.add_lines(names, lines)? {
                return Ok(Err(kind));
            }
            left -= 1;
        }
        Ok(Ok(()))
    }

    /// Adds what these lines say.
    #[tactic(auto, using(crate::proofs::Blocks::lines_on, crate::proofs::Blocks::lines_stop))]
    fn add_lines(
        &mut self,
        names: &Names<'_>,
        lines: &[Numbered<'a>],
    ) -> Result<Result<(), ScheduleKind>, AllocError>
        ensures { IfOk result (λ r. MatchResult r
            (λ _. with_lines names.now self.old lines.now ≡ Ok self.new)
            (λ kind. with_lines names.now self.old lines.now ≡ Err kind)) }
    {
        for line in lines {
            if let Err(kind) = self.add_plain(names, line.number, line.line.bytes())? {
                return Ok(Err(kind));
            }
        }
        Ok(Ok(()))
    }

    /// Adds what a line says that is one of the lines.
    fn add_plain(
        &mut self,
        names: &Names<'_>,
        number: u64,
        line: &'a [u8],
    ) -> Result<Result<(), ScheduleKind>, AllocError>
        ensures { IfOk result (λ r. MatchResult r
            (λ _. with_line names.now self.old number line.now ≡ Ok self.new)
            (λ kind. with_line names.now self.old number line.now ≡ Err kind)) }
    {
        if is_clean(line) {
            self.add_tokens(names, number, line)
        } else {
            Ok(Err(ScheduleKind::Lex))
        }
    }

    /// The same by the tokens of the line, whose bytes are all allowed.
    fn add_tokens(
        &mut self,
        names: &Names<'_>,
        number: u64,
        line: &'a [u8],
    ) -> Result<Result<(), ScheduleKind>, AllocError>
        ensures { IfOk result (λ r. MatchResult r
            (λ _. with_tokens names.now self.old number line.now (tokens_of line.now)
            ≡ Ok self.new)
            (λ kind. with_tokens names.now self.old number line.now (tokens_of line.now)
            ≡ Err kind)) }
    {
        match line_of(names, &self.packets, Tokens::of(line)) {
            Ok(Some(said)) => self.add_said(number, line, said),
            Ok(None) => Ok(Ok(())),
            Err(kind) => Ok(Err(kind)),
        }
    }

    /// Adds what a line says, if there may be a step more.
    fn add_said(
        &mut self,
        number: u64,
        line: &'a [u8],
        said: Said<'a>,
    ) -> Result<Result<(), ScheduleKind>, AllocError>
        ensures { IfOk result (λ r. MatchResult r
            (λ _. lengthened self.old number line.now (Some said.entry) ≡ Ok self.new)
            (λ kind. lengthened self.old number line.now (Some said.entry) ≡ Err kind)) }
    {
        if self.steps.len() >= MAX_STEPS {
            return Ok(Err(ScheduleKind::TooLong));
        }
        self.steps.push(Step {
            line: number,
            may: said.may,
            action: said.action,
        })?;
        self.add(number, line, said.name)?;
        Ok(Ok(()))
    }

    /// The same where the line has its usual form.
    fn add_usual(
        &mut self,
        number: u64,
        line: &'a [u8],
        said: SaidUsually<'a>,
    ) -> Result<Result<(), ScheduleKind>, AllocError>
        ensures { IfOk result (λ r. MatchResult r
            (λ _. lengthened self.old number line.now (Some (exactly said.entry)) ≡ Ok self.new)
            (λ kind. lengthened self.old number line.now (Some (exactly said.entry)) ≡ Err kind)) }
    {
        if self.steps.len() >= MAX_STEPS {
            return Ok(Err(ScheduleKind::TooLong));
        }
        self.steps.push_usual(number, said.usual)?;
        self.add(number, line, said.name)?;
        Ok(Ok(()))
    }

    /// Adds the name of the packet that the last step issues, and its line to the block that is
    /// open.
    fn add(
        &mut self,
        number: u64,
        line: &'a [u8],
        name: Option<Piece<'a>>,
    ) -> Result<(), AllocError>
        requires behind { length self.old.packets < length self.old.steps }
        requires few { length self.old.packets < 2 ^ 16 }
        ensures { OnOk result (self.new ≡ record self.old {
          packets = self.old.packets ++ option_to_list name.entry;
          block = kept self.old.block number line.now;
        }) }
    {
        if let Some(name) = name {
            self.packets.add(name)?;
        }
        self.keep(number, line)
    }

    /// Keeps a line for the block that is open, if one is.
    fn keep(&mut self, number: u64, line: &'a [u8]) -> Result<(), AllocError>
        ensures { OnOk result (self.new
            ≡ record self.old { block = kept self.old.block number line.now }) }
    {
        if let Some(mut open) = self.block.take() {
            open.add(number, line)?;
            self.block = Some(open);
        }
        Ok(())
    }
}
