//! Lines of events in their usual form, read in one pass: most lines of a schedule have it.

ghost use Rattle.std.specs.Prelude.{◌≡◌, ◌∷◌, IfSome, IsTrue, false};
ghost use Rattle.text.specs.Cut.{lines_of};
ghost use Rattle.interleave.specs.Line.{cancel_line, dpc_line, interrupt_line, issue_line};
ghost use Rattle.interleave.specs.Line.{startio_line, step_line};
ghost use Rattle.interleave.specs.Usual.{IsCount, Reads, TakesMajor, TakesNumber, TakesUsual};

use crate::kept::Kept;
use crate::read::{MAX_REPEATS, Repeated};
use model::event::Event;
use model::status::Major;
use std::marker::Model;
use text::head::{after_word, number_at_head};

/// The events that the first line of a text stands for, if it has the usual form: a word and its
/// operands, each after one space, with numbers in decimal digits and in range, and an LF behind
/// them. It is read by its bytes where it stands, and taken off.
pub(crate) fn usual_line(operands: &mut Operands<'_>) -> Option<Kept>
    ensures { IfSome result (λ r. TakesUsual (lines_of operands.old) r (lines_of operands.new)) }
{
    if let Some(rest) = after_word(operands.rest, b"step") {
        operands.rest = rest;
        return steps(operands);
    }
    if let Some(rest) = after_word(operands.rest, b"issue") {
        operands.rest = rest;
        return request(operands);
    }
    if let Some(rest) = after_word(operands.rest, b"cancel") {
        operands.rest = rest;
        return cancel(operands);
    }
    if let Some(rest) = after_word(operands.rest, b"interrupt") {
        operands.rest = rest;
        return interrupt(operands);
    }
    if let Some(rest) = after_word(operands.rest, b"dpc") {
        operands.rest = rest;
        return dpc(operands);
    }
    if let Some(rest) = after_word(operands.rest, b"startio") {
        operands.rest = rest;
        return startio(operands);
    }
    None
}

/// `T`, or `T K`.
fn steps(operands: &mut Operands<'_>) -> Option<Kept>
    ensures { IfSome result (λ r. Reads step_line operands.old r operands.new) }
{
    let thread = operands.byte()?;
    let count = times(operands)?;
    let event = Event::Step { thread };
    Some(Kept::of(Repeated { event, count }))
}

/// How often a thread steps, by what stands after its number: nothing, or how often.
#[tactic(auto, using(crate::proofs::Usual::counts))]
fn times(operands: &mut Operands<'_>) -> Option<usize>
    ensures { IfSome result (λ count. IsCount operands.old count operands.new) }
{
    if operands.ends() {
        return Some(1);
    }
    let count = operands.number()?;
    if !operands.ends() || count == 0 || count > MAX_REPEATS {
        return None;
    }
    Some(count as usize)
}

/// `T D MAJOR ARG`.
#[tactic(auto, using(crate::proofs::Usual::issue_read))]
fn request(operands: &mut Operands<'_>) -> Option<Kept>
    ensures { IfSome result (λ r. Reads issue_line operands.old r operands.new) }
{
    let thread = operands.byte()?;
    let device = operands.byte()?;
    let major = operands.major()?;
    let argument = operands.number()?;
    if !operands.ends() {
        return None;
    }
    let event = Event::Issue {
        thread,
        device,
        major,
        argument,
    };
    Some(Kept::of(Repeated { event, count: 1 }))
}

/// `T N LEVEL`.
#[tactic(auto, using(crate::proofs::Usual::cancel_read))]
fn cancel(operands: &mut Operands<'_>) -> Option<Kept>
    ensures { IfSome result (λ r. Reads cancel_line operands.old r operands.new) }
{
    let thread = operands.byte()?;
    let packet = operands.number()?;
    let level = operands.byte()?;
    if !operands.ends() {
        return None;
    }
    let event = Event::Cancel {
        thread,
        packet,
        level,
    };
    Some(Kept::of(Repeated { event, count: 1 }))
}

/// `D`.
#[tactic(auto, using(crate::proofs::Usual::interrupt_read))]
fn interrupt(operands: &mut Operands<'_>) -> Option<Kept>
    ensures { IfSome result (λ r. Reads interrupt_line operands.old r operands.new) }
{
    let device = operands.byte()?;
    if !operands.ends() {
        return None;
    }
    let event = Event::Interrupt { device };
    Some(Kept::of(Repeated { event, count: 1 }))
}

/// `T D` of a DPC.
#[tactic(auto, using(crate::proofs::Usual::dpc_read))]
fn dpc(operands: &mut Operands<'_>) -> Option<Kept>
    ensures { IfSome result (λ r. Reads dpc_line operands.old r operands.new) }
{
    let thread = operands.byte()?;
    let device = operands.byte()?;
    if !operands.ends() {
        return None;
    }
    let event = Event::Dpc { thread, device };
    Some(Kept::of(Repeated { event, count: 1 }))
}

/// `T D` of a start.
#[tactic(auto, using(crate::proofs::Usual::startio_read))]
fn startio(operands: &mut Operands<'_>) -> Option<Kept>
    ensures { IfSome result (λ r. Reads startio_line operands.old r operands.new) }
{
    let thread = operands.byte()?;
    let device = operands.byte()?;
    if !operands.ends() {
        return None;
    }
    let event = Event::StartIo { thread, device };
    Some(Kept::of(Repeated { event, count: 1 }))
}

/// The bytes of a text that are not read yet. What an operand is read from begins with one space,
/// and reading stops where the operand does.
#[derive(Drop)]
pub(crate) struct Operands<'a> {
    pub(crate) rest: &'a [u8],
}

impl<'a> Model for Operands<'a> {
    ghost use Rattle.std.specs.Prelude.{List, ℕ};

    ghost Value = { List ℕ };

    ghost view = { λ operands. operands.rest.now };
}

impl Operands<'_> {
    /// Takes a number of 8 bits.
    fn byte(&mut self) -> Option<u8>
        ensures { IfSome result (λ n. TakesNumber self.old n self.new) }
    {
        let number = self.number()?;
        if number > 255 {
            return None;
        }
        Some(number as u8)
    }

    /// Takes a number that isn't far out of any range.
    #[tactic(auto, using(crate::proofs::Usual::takes_number))]
    fn number(&mut self) -> Option<u64>
        ensures { IfSome result (λ n. TakesNumber self.old n self.new) }
    {
        let (space, bytes) = self.rest.split_first()?;
        if *space != b' ' {
            return None;
        }
        let found = number_at_head(bytes)?;
        self.rest = found.rest;
        Some(found.number)
    }

    /// Takes the word of a major function.
    #[tactic(auto, using(crate::proofs::Usual::major_taken))]
    fn major(&mut self) -> Option<Major>
        ensures { IfSome result (λ m. TakesMajor self.old m self.new) }
    {
        if let Some(rest) = after_word(self.rest, b" READ") {
            self.rest = rest;
            return Some(Major::Read);
        }
        if let Some(rest) = after_word(self.rest, b" WRITE") {
            self.rest = rest;
            return Some(Major::Write);
        }
        if let Some(rest) = after_word(self.rest, b" CONTROL") {
            self.rest = rest;
            return Some(Major::Control);
        }
        None
    }

    /// Takes an LF, if one stands behind the operands that were read.
    fn ends(&mut self) -> bool
        ensures ends { IsTrue result → self.old ≡ 10 ∷ self.new }
        ensures same { result ≡ false → self.new ≡ self.old }
    {
        if let Some((byte, rest)) = self.rest.split_first() {
            if *byte == b'\n' {
                self.rest = rest;
                return true;
            }
        }
        false
    }
}
