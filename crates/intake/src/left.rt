//! A queue that its submitters and takers have left.

ghost use Rattle.std.specs.Prelude.{◌≡◌, ◌<◌, ◌+◌, ◌++◌, ◌∷◌, [], ℕ, IfNone, IfSome};
ghost use Rattle.crossbeam_queue.specs.Passes.{IsPassOf};
ghost use Rattle.model.specs.History.{NamedCommand};
ghost use Rattle.intake.specs.Ends.{AreInOrder, AreNumbered, AreSubmittersOf, AreTakersOf};
ghost use Rattle.intake.specs.Ends.{submitter_shares, taker_shares, weigh_put, weigh_taken};
ghost use Rattle.intake.specs.Kept.{HasAllShares, known, queue_of};
ghost use Rattle.intake.specs.Lists.{AreAmong, HasSame, weigh};

use crate::rule::{Cut, Known, Line, Takes};
use crate::submitter::Submitter;
use crate::taker::Taker;
use hostcore::Taken;
use std::marker::Model;
use std::sync::Wait;

/// A queue that all its submitters and takers have left. Contracts see all commands that were put
/// into it, and all that were taken from it so far, each with its name.
#[derive(Drop)]
pub struct Left {
    line: Line,
    pass: Known,
}

impl Model for Left {
    ghost use Rattle.crossbeam_queue.specs.Passes.{IsPassOf};
    ghost use Rattle.intake.specs.Ends.{LeftState};
    ghost use Rattle.intake.specs.Kept.{HasAllShares, known};

    ghost Value = { LeftState };

    ghost view = { λ s. record { put = (known s.pass).put; taken = (known s.pass).taken } };

    ghost invariant = { λ s. IsPassOf s.line s.pass × HasAllShares s.pass };
}

/// The pass with what the passes of these submitters know.
pub(crate) fn with_submitters(line: &Line, mut pass: Known, mut submitters: Vec<Submitter>) -> Known
    requires queue { AreSubmittersOf (queue_of line.now) submitters.items }
    requires pass { IsPassOf line.now pass × (0 < (known pass).shares) }
    ensures pass { IsPassOf line.now result }
    ensures shares { (known result).shares
        ≡ (known pass).shares + submitter_shares submitters.items }
    ensures put { (h : NamedCommand → ℕ) → weigh h (known result).put
        ≡ weigh h (known pass).put + weigh_put h submitters.items }
    ensures taken { (known result).taken ≡ (known pass).taken }
    ensures names { AreNumbered submitters.items }
{
    while let Some(submitter) = submitters.pop() {
        line.absorb::<Cut>(&mut pass, submitter.into_pass());
    }
    pass
}

/// The pass with what the passes of these takers know.
pub(crate) fn with_takers(line: &Line, mut pass: Known, mut takers: Vec<Taker>) -> Known
    requires queue { AreTakersOf (queue_of line.now) takers.items }
    requires pass { IsPassOf line.now pass × (0 < (known pass).shares) }
    ensures pass { IsPassOf line.now result }
    ensures shares { (known result).shares
        ≡ (known pass).shares + taker_shares takers.items }
    ensures taken { (h : NamedCommand → ℕ) → weigh h (known result).taken
        ≡ weigh h (known pass).taken + weigh_taken h takers.items }
    ensures put { (known result).put ≡ (known pass).put }
    ensures order { AreInOrder takers.items }
{
    while let Some(taker) = takers.pop() {
        line.absorb::<Cut>(&mut pass, taker.into_pass());
    }
    pass
}

impl Left {
    /// The queue and the pass that has all its shares.
    pub(crate) fn of(line: Line, mut pass: Known) -> Left
        requires pass { IsPassOf line pass }
        requires all { HasAllShares pass }
        ensures left { result ≡ record { put = (known pass).put; taken = (known pass).taken } }
        ensures among { AreAmong result.taken result.put }
    {
        line.learn_as::<Takes>(&mut pass);
        Left { line, pass }
    }

    /// Takes the command at the front of the queue. None where the queue is empty: then each
    /// command that was put was taken, as often as it was put.
    pub fn next<R: Wait>(&mut self, rt: &R) -> Option<Taken>
        ensures taken { IfSome result (λ taken. self.new
            ≡ record self.old { taken = self.old.taken ++ taken ∷ [] }) }
        ensures none { IfNone result (self.new ≡ self.old) }
        ensures all { IfNone result (HasSame self.new.put self.new.taken) }
        ensures among { AreAmong self.new.taken self.new.put }
    {
        let queued = self.line.pop_as::<Takes, R>(rt, &mut self.pass)?;
        self.line.learn_as::<Takes>(&mut self.pass);
        Some(queued.taken())
    }
}
